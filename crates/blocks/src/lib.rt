// A block of bytes walked by the parts of the split layout. A part walks the whole block and notes what its vectors come to at each
// byte, so that a match costs no second walk; where a next number is no state it says at which byte. The calls here have premises;
// `reading`, which stands on them, has none.
#![tactic(auto)]

pub mod block;
pub mod places;
pub mod sleep;
pub mod start;
pub mod tables;
pub mod walks;
