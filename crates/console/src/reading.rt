// Reading an input up to a limit.
ghost use Rattle.std.specs.Prelude.{◌≡◌, take, IfOk, IfSome};

use std::alloc::Global;
use std::io::{self, Read};

// What is left of the input, but no more than its first `most` bytes.
pub fn read_at_most<R: Read + Drop>(heap: Global, input: R, most: u64) -> io::Result<Vec<u8>>
    ensures { IfOk result (λ read. IfSome (R.remaining input) (λ bytes. read.items ≡ take most bytes)) }
{
    let mut read = Vec::new(heap);
    input.take(most).read_to_end(&mut read)?;
    Ok(read)
}

#[cfg(test)]
mod tests {
    use super::*;
    use std::test::Fail;

    #[test]
    fn the_rest_is_not_read(rt: HostRuntime) -> Result<(), Fail> {
        let input: &[u8] = b"N,0,1,0";
        let read = read_at_most(rt.alloc(), input, 3)?;
        assert!(rt; read.as_slice() == b"N,0".as_slice());
        Ok(())
    }
}
