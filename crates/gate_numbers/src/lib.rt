// The gate's answers as numbers. What its replacing and its beginning answer is the desk's. Functions and no `From`s, as in `numbers`.
#![tactic(auto)]

ghost use Rattle.std.specs.Prelude.{◌≡◌};
ghost use Rattle.gate.specs.Numbers.{piece_number, piece_values, verdict_number, verdict_values};
ghost use Rattle.numbers.specs.Answers.{said_of};

use desk::NoTicket;
use gate::{Piece, PieceRefusal, Verdict};
use numbers::Said;

pub fn of_piece(said: Result<Piece, PieceRefusal>) -> Said
    ensures { result ≡ said_of (piece_number said) (piece_values said) }
{
    match said {
        Ok(Piece::Read) => Said::new(0, &[1]),
        Ok(Piece::Cut(taken)) => Said::new(0, &[0, taken as u64]),
        Err(PieceRefusal::NoTicket) => Said::new(12, &[]),
        Err(PieceRefusal::Stale(edition)) => Said::new(13, &[u64::from(edition.0)]),
    }
}

// No verdict is 0, so that an answer of zeros lets nothing pass.
pub fn of_verdict(said: Result<Verdict, NoTicket>) -> Said
    ensures { result ≡ said_of (verdict_number said) (verdict_values said) }
{
    match said {
        Ok(Verdict::Pass) => Said::new(0, &[1]),
        Ok(Verdict::Hold(mask)) => Said::new(0, &[2, mask]),
        Ok(Verdict::Stale(edition)) => Said::new(0, &[3, u64::from(edition.0)]),
        Ok(Verdict::Unread) => Said::new(0, &[4]),
        Err(NoTicket) => Said::new(12, &[]),
    }
}
