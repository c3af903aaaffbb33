// The passes of a judged table by number.
ghost use Rattle.std.specs.Prelude.{◌≡◌};
ghost use Rattle.passes.specs.Call.{pass_table};
ghost use Rattle.passes.specs.Arrays.{passes_of};

use crate::Passes;
use records::PassRecord;
use tables::judge::Judged;

// The passes of a table.
pub(crate) fn load_passes(judged: &Judged<PassRecord>) -> Passes
    ensures { result ≡ passes_of (pass_table judged.now.table.bytes.now) }
{
    let mut passes = Passes {
        by_number: [None; 24],
    };
    for place in 0..judged.table.count() {
        if let PassRecord::P(pass) = judged.table.at(place) {
            passes.by_number[usize::from(pass.number)] = Some(pass);
        }
    }
    passes
}
