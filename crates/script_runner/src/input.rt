// The whole input, which is read before anything else is done.
ghost use Rattle.std.specs.Prelude.{◌≡◌, ◌<◌, ◌≤◌, ◌⊎◌, ◌+◌, ◌++◌, length, IfOk, IfErr, IfSome};

use crate::RunFault;
use std::alloc::Global;
use std::io::Read;

/// The most bytes of a script.
pub(crate) const LONGEST_SCRIPT: usize = 16_777_216;

/// Reads to the end of the input, with at most 16,777,217 calls of the reader.
pub(crate) fn read_all<R: Read>(alloc: Global, reader: &mut R) -> Result<Vec<u8>, RunFault>
    ensures all { IfOk result (λ input. IfSome (R.remaining reader.old) (λ bytes. input.items ≡ bytes)) }
    ensures short { IfOk result (λ input. length input.items ≤ 16777216) }
    ensures endless { result ≡ Err RunFault.EndlessInput → IfSome (R.remaining reader.old) (λ bytes. 16777216 < length bytes) }
    ensures faults { IfErr result (λ fault. (fault ≡ RunFault.Read) ⊎ (fault ≡ RunFault.OutOfMemory) ⊎ (fault ≡ RunFault.EndlessInput)) }
{
    let mut input = Vec::new(alloc);
    let mut chunk = [0; 4096];
    for turn in 0..LONGEST_SCRIPT + 1 {
        let Ok(read) = reader.read(&mut chunk) else {
            return Err(RunFault::Read);
        };
        if read == 0 {
            return Ok(input);
        }
        if read > LONGEST_SCRIPT - input.len() {
            return Err(RunFault::EndlessInput);
        }
        append(&mut input, &chunk[..read])?;
    }
    Err(RunFault::EndlessInput)
}

/// Appends to the input. Its memory doubles, up to the size of the longest script.
fn append(input: &mut Vec<u8>, bytes: &[u8]) -> Result<(), RunFault>
    requires { length input.old.items + length bytes.now ≤ 16777216 }
    ensures ok { IfOk result (λ _. input.new.items ≡ input.old.items ++ bytes.now) }
    ensures err { IfErr result (λ fault. fault ≡ RunFault.OutOfMemory) }
{
    let needed = input.len() + bytes.len();
    if needed > input.capacity() {
        let doubled = (2 * needed).min(LONGEST_SCRIPT);
        input
            .reserve_exact(doubled - input.len())
            .map_err(|_| RunFault::OutOfMemory)?;
    }
    input
        .extend_from_slice(bytes)
        .map_err(|_| RunFault::OutOfMemory)
}
