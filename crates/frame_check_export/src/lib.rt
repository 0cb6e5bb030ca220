// The check of a string, for C to link: the archive that `rt lib` makes here, out/libframe_check_export.a.
#![tactic(auto)]

ghost use Rattle.std.specs.Prelude.{◌≡◌};
ghost use Rattle.frame_check.specs.Check.{check_of};

// C hands over a slice as two arguments, the address and the length: uint16_t coreplough_check(const uint8_t *s, size_t length).
#[unsafe(no_mangle)]
pub extern "C" fn coreplough_check(s: &[u8]) -> u16
    ensures { result ≡ check_of s.now }
{
    frame_check::check(s)
}
