// Numbers of four octets, the highest first. Request 5/12 has such numbers in its files: until then the reader stands here.
ghost use Rattle.std.specs.Prelude.{◌≡◌, ◌+◌, ◌≤◌, ◌<◌, length};
ghost use Rattle.prelude.specs.Limits.{number_limit};
ghost use Rattle.recipients.specs.Parsed.{four_at};

// The number that the four octets from a position on say.
pub fn four_at(s: &[u8], at: usize) -> usize
    requires { at + 4 ≤ length s.now }
    ensures { (result ≡ four_at s.now at) × (result < number_limit) }
{
    u32::from_be_bytes([s[at], s[at + 1], s[at + 2], s[at + 3]]) as usize
}
