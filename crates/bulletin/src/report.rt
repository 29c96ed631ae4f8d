// One report of a bulletin: its text rebuilt with the heading, and filed.
ghost use Rattle.std.specs.Prelude.{◌≡◌, true};
ghost use Rattle.synop_text.specs.Groups.{groups};
ghost use Rattle.store_layout.specs.Sound.{sound};
ghost use Rattle.store_layout.specs.Valid.{is_rank};
ghost use Rattle.bulletin.specs.Rebuilt.{heading};
ghost use Rattle.bulletin.specs.Filed.{Filed};

use crate::text::{begin, squeeze};
use refusals::Refusal;
use synop_text::Characters;
use texts::bytes::put;

// A report filed at a rank in a sound store. Of one beyond 512 bytes the text has the first 513, which are refused as well.
pub fn file_report(
    store: &mut [u8],
    rank: u8,
    time: Characters,
    piece: &[u8],
) -> Result<(), Refusal>
    requires { (sound store.old ≡ true) × (is_rank rank ≡ true) }
    ensures { Filed rank (heading time) (groups piece.now) store.old result store.new }
{
    let mut text = begin(time);
    squeeze(&mut text, piece);
    put(&mut text, b'=');
    engine_filing::file_in(store, text.as_slice(), rank)
}
