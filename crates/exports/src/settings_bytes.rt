// Settings: read, and what was read written again.
ghost use Rattle.exports.specs.Verdicts.{again, settings_verdict};
ghost use Rattle.std.specs.Prelude.{◌≡◌, ◌==◌};

use frames::{read_settings, write_settings};

// Reads settings and writes them again: 0, or the number of the fault.
#[unsafe(no_mangle)]
pub extern "C" fn router_settings(bytes: &[u8], out: &mut [u8]) -> u8
    ensures verdict { result ≡ settings_verdict bytes.now }
    ensures wrote { out.new ≡ again (result == 0) bytes.now out.old }
{
    match read_settings(bytes) {
        Ok(settings) => {
            write_settings(settings, out);
            0
        }
        Err(fault) => u8::from(fault),
    }
}
