// A whole table's length.
ghost use Rattle.std.specs.Prelude.{◌≡◌};
ghost use Rattle.records.specs.Table.{bad_length};

// The length is no multiple of 12, or over 49,152 bytes.
pub fn bad_length(s: &[u8]) -> bool
    ensures { result ≡ bad_length s.now }
{
    s.len() % 12 != 0 || 49152 < s.len()
}
