// Folding: A to Z are taken to a to z, every other byte to itself. It goes by a table, whose rule is shown once for all of it.
ghost use Rattle.std.specs.Prelude.{◌≡◌, map, ◌++◌, ◌<◌, ◌≤◌, drop, get_or, length};
ghost use Rattle.matching.specs.Kinds.{lower};
ghost use Rattle.kinds.specs.Folding.{Folds};

const FOLD: [u8; 256] = [
    0, 1, 2, 3, 4, 5, 6, 7, 8, 9, 10, 11, 12, 13, 14, 15, 16, 17, 18, 19, 20, 21, 22, 23, 24, 25,
    26, 27, 28, 29, 30, 31, 32, 33, 34, 35, 36, 37, 38, 39, 40, 41, 42, 43, 44, 45, 46, 47, 48, 49,
    50, 51, 52, 53, 54, 55, 56, 57, 58, 59, 60, 61, 62, 63, 64, 97, 98, 99, 100, 101, 102, 103,
    104, 105, 106, 107, 108, 109, 110, 111, 112, 113, 114, 115, 116, 117, 118, 119, 120, 121, 122,
    91, 92, 93, 94, 95, 96, 97, 98, 99, 100, 101, 102, 103, 104, 105, 106, 107, 108, 109, 110, 111,
    112, 113, 114, 115, 116, 117, 118, 119, 120, 121, 122, 123, 124, 125, 126, 127, 128, 129, 130,
    131, 132, 133, 134, 135, 136, 137, 138, 139, 140, 141, 142, 143, 144, 145, 146, 147, 148, 149,
    150, 151, 152, 153, 154, 155, 156, 157, 158, 159, 160, 161, 162, 163, 164, 165, 166, 167, 168,
    169, 170, 171, 172, 173, 174, 175, 176, 177, 178, 179, 180, 181, 182, 183, 184, 185, 186, 187,
    188, 189, 190, 191, 192, 193, 194, 195, 196, 197, 198, 199, 200, 201, 202, 203, 204, 205, 206,
    207, 208, 209, 210, 211, 212, 213, 214, 215, 216, 217, 218, 219, 220, 221, 222, 223, 224, 225,
    226, 227, 228, 229, 230, 231, 232, 233, 234, 235, 236, 237, 238, 239, 240, 241, 242, 243, 244,
    245, 246, 247, 248, 249, 250, 251, 252, 253, 254, 255,
];

// The table, to be kept by whoever folds many bytes: each index into the constant itself would lay it out anew.
pub fn fold_table() -> [u8; 256]
    ensures { Folds result }
{
    FOLD
}

pub fn folded(fold: &[u8; 256], c: u8) -> u8
    requires { Folds fold.now }
    ensures { result ≡ lower c }
{
    fold[usize::from(c)]
}

// The bytes of a run folded into another, at its front; what stands behind them stays.
pub fn fold_all(bytes: &[u8], out: &mut [u8])
    requires { length bytes.now ≤ length out.old }
    ensures { out.new ≡ map lower bytes.now ++ drop (length bytes.now) out.old }
{
    let fold = fold_table();
    for (i, c) in bytes.iter().enumerate() {
        out[i] = folded(&fold, *c);
    }
}
