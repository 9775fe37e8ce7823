ghost use Rattle.std.specs.Prelude.{◌*◌, ◌<◌, ◌≤◌};

pub mod answers;

/// A grid of points, `width` to a line and `height` lines; point x of line y is row y × width + x.
pub struct Grid {
    width: u32,
    height: u32,
    ghost some: { (0 < width) × (0 < height) },
    ghost few: { width * height ≤ 1000000 },
}
