// Document 02, S-4: the table of vapour pressures, 1001 entries in hundredths of hPa, one for each dew point from −500 to 500
// tenths of a degree. It is kept as a whole entry every sixteen places and, between these, the difference of each entry from the
// one before it. The entries are those that the generator fills a slice with; tools/vapour_table.py prints them by itself.
ghost use Rattle.std.specs.Prelude.{◌≡◌, ◌<◌, length, sum};
ghost use Rattle.std.proofs.Math.IntN.{sub_ℕ};
ghost use Rattle.vapour.specs.Vapour.{places, entry};
ghost use Rattle.vapour.specs.Vapour as vapour;
ghost use Rattle.vapour.specs.Generator.{AsFilled};
ghost use Rattle.vapour.specs.Kept.{Kept};

// How many entries there are. An index below it stays a number: a type of its own would be unpacked at each of its four uses.
pub const PLACES: usize = 1001;

// A whole entry stands at every index that is a multiple of this.
const SPACING: usize = 16;

// The lowest and the highest dew point of the table.
const LOWEST: i16 = -500;

const HIGHEST: i16 = 500;

// The two constants that the table is kept in, and that they are right.
#[derive(Clone, Copy)]
pub struct Table {
    whole: &'static [u16],
    differences: &'static [u8],
    ghost kept: { Kept whole.now differences.now },
}

impl Table {
    // It promises what the type does: that the constants are right.
    pub fn new() -> Table {
        Table {
            whole: &WHOLE,
            differences: &DIFFERENCES,
        }
    }

    // The entry at an index, that of the dew point index − 500: the last whole entry up to there, with the differences after it.
    fn at(&self, index: usize) -> u16
        requires { index < places }
        ensures { result ≡ entry (sub_ℕ index 500) }
    {
        let block = index / SPACING;
        let first = block * (SPACING - 1);
        let differences = self.differences;
        self.whole[block] + total(&differences[first..first + index % SPACING])
    }

    // The vapour pressure at a dew point.
    #[tactic(auto, unfolding(crate::specs::Vapour::pressure))]
    pub fn pressure(&self, dew_point: i16) -> Option<u16>
        ensures { result ≡ vapour.pressure dew_point }
    {
        if dew_point < LOWEST || dew_point > HIGHEST {
            return None;
        }
        Some(self.at(usize::from(dew_point.abs_diff(LOWEST))))
    }
}

// The differences between two whole entries, or some of them, added.
fn total(differences: &[u8]) -> u16
    requires { length differences.now < SPACING }
    ensures { result ≡ sum differences.now }
{
    differences
        .iter()
        .map(|difference| u16::from(*difference))
        .sum()
}

// Document 02, S-1 and S-4: the filled slice equals the lookup, entry by entry. The contract is the theorem.
pub fn entry_as_filled(index: u16) -> Option<u16>
    requires { index < places }
    ensures { AsFilled index result }
{
    crate::pressures([LOWEST + index as i16; 9])[0]
}

// The whole entries. A comment gives the dew point of each.
static WHOLE: [u16; 63] = [
    6, // -500
    8, // -484
    9, // -468
    11, // -452
    13, // -436
    15, // -420
    18, // -404
    21, // -388
    25, // -372
    30, // -356
    35, // -340
    41, // -324
    47, // -308
    55, // -292
    64, // -276
    74, // -260
    86, // -244
    99, // -228
    113, // -212
    130, // -196
    149, // -180
    171, // -164
    195, // -148
    222, // -132
    253, // -116
    287, // -100
    326, // -84
    368, // -68
    416, // -52
    469, // -36
    529, // -20
    594, // -4
    667, // 12
    748, // 28
    837, // 44
    936, // 60
    1045, // 76
    1164, // 92
    1296, // 108
    1441, // 124
    1599, // 140
    1773, // 156
    1964, // 172
    2172, // 188
    2399, // 204
    2646, // 220
    2916, // 236
    3210, // 252
    3529, // 268
    3875, // 284
    4251, // 300
    4658, // 316
    5099, // 332
    5576, // 348
    6092, // 364
    6648, // 380
    7247, // 396
    7894, // 412
    8589, // 428
    9338, // 444
    10142, // 460
    11005, // 476
    11931, // 492
];

// The differences. A comment names the whole entry that a difference comes right after.
static DIFFERENCES: [u8; 938] = [
    0, // after -500
    1, 0, 0, 0, 0, 0, 0, 0, 0, 0, 0, 0, 0, 1, 0, // after -484
    0, 0, 0, 0, 0, 0, 0, 0, 1, 0, 0, 0, 0, 0, 0, // after -468
    0, 0, 1, 0, 0, 0, 0, 0, 0, 0, 0, 1, 0, 0, 0, // after -452
    0, 0, 0, 1, 0, 0, 0, 0, 0, 0, 0, 1, 0, 0, 0, // after -436
    0, 0, 1, 0, 0, 0, 0, 0, 0, 1, 0, 0, 0, 0, 1, // after -420
    0, 0, 0, 0, 0, 1, 0, 0, 0, 0, 0, 1, 0, 0, 0, // after -404
    1, 0, 0, 0, 0, 1, 0, 0, 0, 0, 1, 0, 0, 0, 1, // after -388
    0, 0, 0, 1, 0, 0, 0, 1, 0, 0, 0, 1, 0, 0, 1, // after -372
    0, 0, 0, 1, 0, 0, 0, 1, 0, 0, 1, 0, 0, 0, 0, // after -356
    0, 1, 0, 0, 1, 0, 0, 0, 1, 0, 0, 1, 0, 0, 0, // after -340
    0, 1, 0, 1, 0, 0, 1, 0, 0, 1, 0, 0, 1, 0, 0, // after -324
    0, 1, 0, 1, 0, 0, 1, 0, 1, 0, 1, 0, 0, 1, 1, // after -308
    0, 1, 0, 1, 0, 1, 0, 1, 0, 1, 0, 1, 0, 1, 1, // after -292
    0, 1, 0, 1, 0, 1, 0, 1, 0, 1, 1, 0, 1, 0, 1, // after -276
    0, 1, 0, 1, 1, 0, 1, 0, 1, 1, 0, 1, 1, 0, 1, // after -260
    0, 1, 1, 0, 1, 1, 1, 0, 1, 1, 1, 0, 1, 1, 0, // after -244
    1, 1, 1, 0, 1, 1, 1, 1, 1, 0, 1, 1, 1, 1, 0, // after -228
    1, 1, 1, 1, 1, 1, 1, 1, 1, 1, 1, 1, 1, 0, 1, // after -212
    1, 1, 1, 2, 1, 1, 1, 1, 1, 1, 1, 1, 1, 1, 1, // after -196
    2, 1, 1, 1, 1, 1, 2, 1, 1, 1, 1, 2, 1, 1, 2, // after -180
    1, 1, 1, 2, 1, 1, 2, 1, 1, 2, 1, 2, 1, 1, 1, // after -164
    2, 1, 2, 1, 2, 1, 2, 1, 2, 1, 2, 1, 2, 1, 2, // after -148
    1, 2, 2, 1, 2, 2, 1, 2, 2, 1, 2, 2, 2, 1, 2, // after -132
    2, 2, 2, 1, 2, 2, 2, 2, 2, 2, 2, 2, 2, 2, 2, // after -116
    2, 2, 2, 2, 2, 2, 3, 2, 2, 2, 2, 2, 3, 2, 2, // after -100
    3, 2, 2, 3, 2, 2, 3, 2, 3, 2, 3, 2, 2, 3, 2, // after -84
    3, 2, 3, 2, 3, 3, 2, 3, 3, 2, 3, 3, 3, 3, 3, // after -68
    3, 3, 3, 3, 3, 3, 3, 3, 3, 3, 3, 3, 3, 3, 3, // after -52
    4, 3, 3, 3, 4, 3, 3, 3, 4, 3, 4, 3, 3, 4, 4, // after -36
    4, 3, 4, 3, 4, 4, 3, 4, 4, 4, 3, 4, 4, 4, 4, // after -20
    4, 4, 3, 5, 4, 4, 4, 4, 4, 4, 4, 5, 4, 4, 5, // after -4
    4, 5, 4, 4, 5, 4, 5, 5, 4, 5, 4, 5, 5, 5, 5, // after 12
    5, 5, 5, 5, 5, 5, 5, 5, 5, 5, 5, 5, 6, 5, 5, // after 28
    6, 5, 6, 5, 6, 5, 6, 5, 6, 6, 5, 6, 6, 6, 6, // after 44
    6, 6, 6, 6, 6, 6, 7, 6, 6, 6, 6, 7, 6, 7, 7, // after 60
    6, 7, 6, 7, 7, 6, 7, 7, 7, 7, 7, 7, 7, 7, 7, // after 76
    7, 7, 8, 7, 7, 8, 7, 8, 7, 8, 7, 8, 8, 8, 8, // after 92
    8, 8, 8, 8, 8, 9, 8, 8, 8, 9, 8, 9, 8, 9, 9, // after 108
    9, 8, 9, 9, 9, 9, 9, 9, 9, 9, 9, 10, 9, 9, 9, // after 124
    10, 9, 10, 10, 10, 9, 10, 10, 10, 10, 10, 11, 10, 10, 11, // after 140
    10, 11, 10, 11, 11, 11, 10, 11, 11, 11, 11, 12, 11, 11, 12, // after 156
    11, 12, 11, 12, 12, 11, 12, 12, 12, 12, 12, 13, 12, 12, 12, // after 172
    13, 12, 13, 13, 12, 13, 13, 13, 13, 14, 13, 13, 14, 13, 13, // after 188
    14, 14, 13, 14, 14, 14, 15, 14, 14, 15, 14, 15, 14, 15, 15, // after 204
    14, 15, 16, 15, 15, 15, 16, 15, 16, 16, 15, 16, 16, 16, 16, // after 220
    17, 16, 17, 16, 17, 16, 17, 17, 17, 17, 17, 18, 17, 18, 18, // after 236
    17, 18, 18, 18, 18, 18, 19, 18, 19, 18, 19, 19, 19, 19, 19, // after 252
    19, 19, 20, 20, 19, 20, 20, 20, 20, 20, 20, 21, 20, 21, 21, // after 268
    21, 21, 21, 21, 21, 22, 21, 22, 22, 22, 22, 22, 22, 23, 23, // after 284
    23, 22, 23, 23, 24, 23, 23, 24, 24, 23, 24, 24, 24, 25, 25, // after 300
    24, 25, 25, 25, 25, 25, 26, 25, 26, 26, 26, 26, 26, 26, 27, // after 316
    27, 26, 27, 28, 27, 27, 28, 27, 28, 28, 28, 28, 28, 29, 29, // after 332
    29, 29, 29, 29, 30, 29, 30, 30, 30, 30, 31, 30, 31, 30, 31, // after 348
    32, 31, 31, 32, 32, 32, 32, 32, 33, 32, 33, 33, 33, 33, 33, // after 364
    34, 34, 34, 34, 34, 35, 34, 35, 35, 35, 36, 35, 36, 36, 36, // after 380
    36, 37, 36, 37, 37, 38, 37, 38, 37, 38, 38, 39, 38, 39, 39, // after 396
    40, 39, 40, 39, 40, 40, 41, 40, 41, 41, 41, 41, 41, 42, 42, // after 412
    42, 42, 43, 43, 43, 43, 43, 44, 44, 44, 44, 44, 45, 44, 46, // after 428
    45, 46, 45, 46, 47, 46, 47, 47, 47, 47, 47, 48, 48, 48, 48, // after 444
    49, 49, 49, 50, 49, 50, 50, 51, 50, 51, 51, 51, 52, 52, 52, // after 460
    52, 53, 53, 53, 53, 54, 54, 54, 54, 54, 55, 55, 56, 55, 56, // after 476
    56, 57, 56, 57, 58, 57, 58, 58, 58, 59, 58, 59, 60, 59, 60, // after 492
    60, 61, 61, 61, 61, 62, 62,
];
