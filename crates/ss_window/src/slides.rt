//! Which units of a window may still be seen, and which are visible, by how many units there were.

ghost use Rattle.std.specs.Prelude.{◌≡◌, ◌≤◌};
ghost use Rattle.ss_window.specs.Slides.{first_kept, visible_count, visible_end};

/// The first unit of a window that may still be seen after `count` units.
pub fn first_kept(size: u32, slide: u32, count: u64) -> u64
    requires { 1 ≤ slide }
    ensures is { result ≡ first_kept size slide count }
    ensures within { result ≤ count }
{
    let size = u64::from(size);
    let slide = u64::from(slide);
    if count < size {
        0
    } else {
        // A multiple of the slide: between two of its moves a window shows the same units.
        (count - size) / slide * slide
    }
}

/// How many units of a window are visible after `count` units.
pub fn visible_count(size: u32, count: u64) -> u64
    ensures { result ≡ visible_count size count }
{
    let size = u64::from(size);
    if count < size { 0 } else { size }
}

/// The number of the unit behind the last that a window shows after `count` units, and 0 where it shows nothing.
pub fn visible_end(size: u32, slide: u32, count: u64) -> u64
    requires { 1 ≤ slide }
    ensures { result ≡ visible_end size slide count }
{
    let visible = visible_count(size, count);
    first_kept(size, slide, count) + visible
}
