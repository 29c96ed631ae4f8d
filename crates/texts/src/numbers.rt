// Numbers in decimal, put behind a text. As in `bytes`, each goes behind the bytes that are there, as far as there is room.
ghost use Rattle.std.specs.Prelude.{◌≡◌};
ghost use Rattle.texts.specs.Written.{Adds};
ghost use Rattle.texts.specs.Numbers as numbers;
ghost use Rattle.texts.specs.Numbers.{field};

use crate::bytes::{put, put_all};
use arrayvec::ArrayVec;
use itoa::{Buffer, Integer};

// The digit of n in the place of the ones: by hand for `five_digits`, which says why.
fn last_digit(n: u32) -> u8
    ensures { result ≡ numbers.last_digit n }
{
    b'0' + (n % 10) as u8
}

// A station's number in five digits. By hand, since `itoa` has no fixed width, and a width of `write!` lets a longer number be longer.
pub fn five_digits(n: u32) -> [u8; 5]
    ensures { result ≡ numbers.five_digits n }
{
    [
        last_digit(n / 10000),
        last_digit(n / 1000),
        last_digit(n / 100),
        last_digit(n / 10),
        last_digit(n),
    ]
}

// A number in decimal behind a space.
#[tactic(auto, using(crate::proofs::Writing::adds_two))]
pub fn number<I: Integer, const N: usize>(text: &mut ArrayVec<u8, N>, n: I)
    ensures { Adds N text.old.items text.new.items (field (I.text n)) }
{
    put(text, b' ');
    put_all(text, Buffer::new().format(n).as_bytes());
}
