ghost use Rattle.std.specs.Prelude.{◌≡◌, ◌<◌, ◌≤◌, length, IfOk, IfErr};
ghost use Rattle.netlist.specs.declared.fault.NetlistFault.TheVariants.{TooLarge as AsTooLarge};

use crate::fault::{MAX_TEXT, NetlistFault};

// A netlist text that is not too long.
#[derive(Clone, Copy)]
pub struct Text<'a> {
    pub bytes: &'a [u8],
    ghost few: { length bytes.now ≤ 1048576 },
}

impl<'a> Text<'a> {
    pub(crate) fn new(bytes: &'a [u8]) -> Result<Text<'a>, NetlistFault>
        ensures ok { IfOk result (λ text. text.bytes.now ≡ bytes.now) }
        ensures err { IfErr result (λ fault. (fault ≡ AsTooLarge) × (1048576 < length bytes.now)) }
    {
        if bytes.len() > MAX_TEXT {
            return Err(NetlistFault::TooLarge);
        }
        Ok(Text { bytes })
    }
}
