ghost use Rattle.std.specs.Prelude.{◌≡◌, ◌*◌};
ghost use Rattle.combine.specs.Combined.{bars, capped};

/// The greatest figure that a block can have, 2^60: that of a barred block too.
pub(crate) const GREATEST_FIGURE: u64 = 1 << 60;

/// The figure, or the greatest there is where it would be above that.
pub(crate) fn capped(figure: u128) -> u64
    ensures { result ≡ capped figure }
{
    figure.min(u128::from(GREATEST_FIGURE)) as u64
}

/// The figure so many times.
pub(crate) fn multiplied(factor: u32, figure: u64) -> u64
    ensures { result ≡ capped (factor * figure) }
{
    capped(u128::from(factor) * u128::from(figure))
}

/// Whether a block of the measured figure is barred under the limit.
pub(crate) fn barred(limit: u64, measured: u64) -> bool
    ensures { result ≡ bars limit measured }
{
    measured >= limit
}
