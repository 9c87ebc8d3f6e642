// Little-endian numbers, as job lists have them (RULES, "Job lists and writing"): at any index, as a byte past the end
// is 0, and where every byte is inside.
#![tactic(auto)]

ghost use Rattle.std.specs.Prelude.{◌≡◌, ◌+◌, ◌≤◌, length};
ghost use Rattle.def_jobs.specs.Jobs.{le16, le32};

// The loads where every byte is inside.
pub fn load16(s: &[u8], at: usize) -> u16
    requires { at + 2 ≤ length s.now }
    ensures { result ≡ le16 s.now at }
{
    u16::from_le_bytes([s[at], s[at + 1]])
}

pub fn load32(s: &[u8], at: usize) -> u32
    requires { at + 4 ≤ length s.now }
    ensures { result ≡ le32 s.now at }
{
    u32::from_le_bytes([s[at], s[at + 1], s[at + 2], s[at + 3]])
}

// The little-endian number of two bytes at an index.
pub fn u16_from_le_bytes(s: &[u8], at: usize) -> u16
    ensures { result ≡ le16 s.now at }
{
    utils::u16_from_be_bytes(s, at).swap_bytes()
}

// Four bytes.
pub fn u32_from_le_bytes(s: &[u8], at: usize) -> u32
    ensures { result ≡ le32 s.now at }
{
    utils::u32_from_be_bytes(s, at).swap_bytes()
}
