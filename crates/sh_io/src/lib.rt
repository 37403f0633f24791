//! Where bytes come from and go to, with a count of faults: the two traits, their forms over memory
//! and over the standard streams, reading to the end and writing a whole text.
#![tactic(auto)]

mod ends;
mod memory_sink;
mod memory_source;
mod reading;
mod standard;
mod writing;

pub use ends::{Failed, Sink, Source};
pub use memory_sink::{MemSink, mem_sink};
pub use memory_source::{MemSource, mem_source};
pub use reading::{MAX_BYTES, ReadEnd, read_all};
pub use standard::{StdSink, StdSource};
pub use writing::{WriteFault, write_text};

#[cfg(test)]
mod tests {
    use crate::*;
    use std::test::Fail;

    #[test]
    fn reads_all_that_a_source_holds(rt: HostRuntime) -> Result<(), Fail> {
        let alloc = rt.alloc();
        for per_call in [1, 2, 5, u64::MAX] {
            assert!(rt; 0 < per_call);
            let mut src = mem_source(b"hello".to_vec(alloc)?, per_call, Vec::new(alloc));
            assert_eq!(rt; read_all(alloc, &mut src)?.as_slice(), b"hello".as_slice());
        }
        Ok(())
    }

    #[test]
    fn no_more_is_read_than_shows_the_length(rt: HostRuntime) -> Result<(), Fail> {
        let alloc = rt.alloc();
        let bytes = vec![in alloc; b' '; MAX_BYTES + 3]?;
        let mut src = mem_source(bytes, u64::MAX, Vec::new(alloc));
        assert_eq!(rt; read_all(alloc, &mut src).err(), Some(ReadEnd::TooLong));
        assert_eq!(rt; read_all(alloc, &mut src)?.as_slice(), b"  ".as_slice());
        Ok(())
    }

    #[test]
    fn a_failed_read_is_a_fault(rt: HostRuntime) -> Result<(), Fail> {
        let alloc = rt.alloc();
        for call in [1, 2, 4] {
            let mut src = mem_source(b"hello".to_vec(alloc)?, 2, vec![in alloc; call]?);
            assert_eq!(rt;
                read_all(alloc, &mut src).err(),
                Some(ReadEnd::Fault),
                "call {call}"
            );
        }
        let mut src = mem_source(b"hello".to_vec(alloc)?, 2, vec![in alloc; 5]?);
        assert_eq!(rt; read_all(alloc, &mut src)?.as_slice(), b"hello".as_slice());
        Ok(())
    }

    #[test]
    fn a_sink_keeps_what_it_took(rt: HostRuntime) -> Result<(), Fail> {
        let alloc = rt.alloc();
        let mut whole = mem_sink(alloc, 5, 2, Vec::new(alloc))?;
        assert_eq!(rt; write_text(&mut whole, b"hello"), Ok(()));
        assert_eq!(rt; whole.bytes(), b"hello".as_slice());
        assert_eq!(rt; write_text(&mut whole, b""), Ok(()));
        assert_eq!(rt; write_text(&mut whole, b"!"), Err(WriteFault));
        let mut failing = mem_sink(alloc, 5, 2, vec![in alloc; 2]?)?;
        assert_eq!(rt; write_text(&mut failing, b"hello"), Err(WriteFault));
        assert_eq!(rt; failing.bytes(), b"he".as_slice());
        let mut small = mem_sink(alloc, 4, 3, Vec::new(alloc))?;
        assert_eq!(rt; write_text(&mut small, b"hello"), Err(WriteFault));
        assert_eq!(rt; small.bytes(), b"hell".as_slice());
        Ok(())
    }
}
