ghost use Rattle.std.specs.Prelude.{◌≡◌, IfOk};

use sh_base::Mem;
use std::alloc::Global;
use std::marker::Model;

/// A value in memory of its own, which contracts see as the value.
#[derive(Drop)]
pub struct Boxed<T> {
    value: Box<T>,
}

impl<T> Model for Boxed<T> {
    ghost Value = { T };

    ghost coded = { T.code };

    ghost view = { λ it. it.value.value };
}

impl<T: Drop> Boxed<T> {
    pub fn new(alloc: Global, value: T) -> Result<Boxed<T>, Mem>
        ensures { IfOk result (λ boxed. boxed ≡ value) }
    {
        let value = Box::new(alloc, value)?;
        Ok(Boxed { value })
    }

    pub fn into_value(self) -> T
        ensures { result ≡ self }
    {
        Box::into_inner(self.value)
    }
}
