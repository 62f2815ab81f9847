// What a replacement answers, by what building answered.
ghost use Rattle.std.specs.Prelude.{◌≡◌, Ok, not, false, eqb};
ghost use Rattle.desk.specs.Replace.{replace_by};

use crate::{After, Desk, Edition, ReplaceRefusal, Replaced};
use tables::BuildFault;

// By what building answered, and whether an edition is left.
pub fn replaced(
    desk: Desk,
    s: [usize; 2],
    built: Result<usize, BuildFault>,
    write: bool,
) -> After<Result<Replaced, ReplaceRefusal>>
    requires { write ≡ not (eqb desk.edition.0 4294967295) }
    ensures { result ≡ replace_by desk s built (eqb desk.edition.0 4294967295) }
{
    match built {
        Err(BuildFault::Set(fault)) => After {
            desk,
            answer: Err(ReplaceRefusal::Fault(fault)),
        },
        Err(BuildFault::Table(machine, needs)) => After {
            desk,
            answer: Err(ReplaceRefusal::Table(machine, needs)),
        },
        Ok(count) => {
            if write {
                return under_next(desk, s, count);
            }
            After {
                desk,
                answer: Err(ReplaceRefusal::EditionEnd),
            }
        }
    }
}

fn under_next(desk: Desk, s: [usize; 2], count: usize) -> After<Result<Replaced, ReplaceRefusal>>
    requires { desk.edition.0 ≡ 4294967295 → ⊥ }
    ensures { result ≡ replace_by desk s (Ok count) false }
{
    let edition = desk.edition;
    let next = Edition(edition.0 + 1);
    let mut raised = desk;
    raised.edition = next;
    raised.slots = s;
    After {
        desk: raised,
        answer: Ok(Replaced {
            edition: next,
            tags: count,
        }),
    }
}
