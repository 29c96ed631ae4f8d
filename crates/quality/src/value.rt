// What the time and fill steps do with the values of cells.
ghost use Rattle.std.specs.Prelude.{◌≡◌, pos, ◌+ℤ◌};
ghost use Rattle.std.specs.Int.Signed.{shr_z};
ghost use Rattle.quality.specs.Steps as Steps;

// x and y differ by more than 100.
pub fn far(x: i16, y: i16) -> bool
    ensures { result ≡ Steps.far x y }
{
    100 < x.abs_diff(y)
}

// x is within 50 of y.
pub fn near(x: i16, y: i16) -> bool
    ensures { result ≡ Steps.near x y }
{
    x.abs_diff(y) <= 50
}

// The sum of x, y and 1, whose half rounds the mean of x and y up.
fn raised_sum(x: i16, y: i16) -> i32
    ensures { result ≡ x +ℤ y +ℤ pos 1 }
{
    x as i32 + y as i32 + 1
}

// The mean of x and y, rounded up where it is a half: floor((x + y + 1) / 2).
pub fn middle(x: i16, y: i16) -> i16
    ensures { result ≡ shr_z (x +ℤ y +ℤ pos 1) 2 }
{
    (raised_sum(x, y) >> 1) as i16
}
