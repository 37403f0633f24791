ghost use Rattle.std.specs.Prelude.{◌≡◌, Some};
ghost use Rattle.sh_names.specs.Names.{at_start, behind, inside, role_by_kind, role_in};

use sh_grammar::Form;
use sh_lex::TokenKind;

/// What a token says of names.
#[derive(Clone, Copy)]
pub enum Role {
    Nothing,
    /// The name of a value, defined or used.
    Value,
    /// A name that a region defines.
    Own,
    /// A combiner, which stands for a region with three names of its own.
    Combiner,
    /// A word of a map.
    Word,
    NewAlias,
    Alias,
    /// The function that a device item is said of.
    DeviceName,
    FuncName,
}

/// Where a token stands. Functions, maps and operations are known by the numbers of their first
/// tokens.
#[derive(Clone, Copy)]
pub struct Scope {
    /// The function.
    pub func: usize,
    /// The operation of the function.
    pub op: usize,
    /// Whether it stands in the operation's region.
    pub in_region: bool,
    /// The operation of the function or of the region, or the block argument.
    pub step: usize,
    pub map: usize,
    /// Whether it stands before the module's items, among the aliases.
    pub in_head: bool,
    /// What the next `@name` is.
    pub at: Role,
    /// The form that begins here, the innermost one.
    pub opened: Option<Form>,
}

impl Scope {
    pub(crate) fn at_start() -> Scope
        ensures { result ≡ at_start }
    {
        Scope {
            func: 0,
            op: 0,
            in_region: false,
            step: 0,
            map: 0,
            in_head: true,
            at: Role::Nothing,
            opened: None,
        }
    }

    /// Where the tokens of a form stand that begins with this token.
    fn inside(self, token: usize, form: Form) -> Scope
        ensures { result ≡ inside token form self }
    {
        let mut scope = self;
        match form {
            Form::Contents => scope.in_head = false,
            Form::Map => scope.map = token,
            Form::Device => scope.at = Role::DeviceName,
            Form::Func => {
                scope.func = token;
                scope.at = Role::FuncName;
            }
            Form::Operation | Form::Return => {
                scope.op = token;
                scope.step = token;
                scope.in_region = false;
            }
            Form::BlockArgument | Form::BodyOperation | Form::GenericOperation | Form::Yield => {
                scope.step = token;
                scope.in_region = true;
            }
            _ => {}
        }
        scope
    }

    /// Opens a form that begins with this token.
    pub(crate) fn open(self, token: usize, form: Form) -> Scope
        ensures { result ≡ record (inside token form self) { opened = Some form } }
    {
        let mut scope = self.inside(token, form);
        scope.opened = Some(form);
        scope
    }

    /// Where the token stands behind one of this kind.
    pub(crate) fn pass(self, kind: TokenKind) -> Scope
        ensures { result ≡ behind kind self }
    {
        let mut scope = self;
        scope.opened = None;
        match kind {
            TokenKind::At => scope.at = Role::Nothing,
            _ => {}
        }
        scope
    }

    /// What a token says by its kind, where no form that is told apart begins with it.
    fn role_by_kind(self, kind: TokenKind) -> Role
        ensures { result ≡ role_by_kind kind self }
    {
        match kind {
            TokenKind::Val => Role::Value,
            TokenKind::At => self.at,
            _ => Role::Nothing,
        }
    }

    /// What a token says by its kind and the form that begins with it.
    pub(crate) fn role(self, kind: TokenKind) -> Role
        ensures { result ≡ role_in self.opened kind self }
    {
        match self.opened {
            Some(Form::BlockArgument | Form::BodyOperation | Form::GenericOperation) => Role::Own,
            Some(Form::Combiner) => Role::Combiner,
            Some(Form::Name) => Role::Word,
            Some(Form::Hash) => {
                if self.in_head {
                    Role::NewAlias
                } else {
                    Role::Alias
                }
            }
            _ => self.role_by_kind(kind),
        }
    }
}
