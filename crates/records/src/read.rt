// Reading the record at a place of the lent bytes, through the reader.
ghost use Rattle.std.specs.Prelude.{◌≡◌, ◌+◌, ◌*◌, ◌≤◌, length};
ghost use Rattle.records.specs.Bytes.{record_at};

use crate::plain::Readable;
use crate::reader::Reader;

// The record at a place of a table, if it can be read.
pub fn read<R: Readable>(bytes: &[u8], place: usize) -> Option<R>
    requires { 12 * place + 12 ≤ length bytes.now }
    ensures { result ≡ R.reading (record_at bytes.now place) }
{
    Reader::at(bytes, place).next()
}
