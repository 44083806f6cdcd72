// The cases that are both listed and handed to the strip call. Each of these functions runs its cases in turn, by name.
use super::{bones, empty};
use std::io;

pub fn negative_count<F: Fn(&str, &[u8]) -> io::Result<()>>(run: F) -> io::Result<()>
    requires { F.IsAlwaysCallable run }
{
    run("bone count -1", &empty::negative_count())
}

pub fn orientations<F: Fn(&str, &[u8]) -> io::Result<()>>(run: F) -> io::Result<()>
    requires { F.IsAlwaysCallable run }
{
    run("one bone", &bones::one_bone())?;
    for (what, x, y, w) in [
        ("orientation all 0", 0.0, 0.0, 0.0),
        (
            "orientation 2^-12, 2^-12, 0, 0",
            1.0 / 4096.0,
            1.0 / 4096.0,
            0.0,
        ),
        ("orientation 2^-11, 0, 0, 0", 1.0 / 2048.0, 0.0, 0.0),
    ] {
        run(what, &bones::turned(x, y, w))?;
    }
    Ok(())
}

// One record, named by its index and its previous and next link.
pub fn indices<F: Fn(&str, &[u8]) -> io::Result<()>>(run: F) -> io::Result<()>
    requires { F.IsAlwaysCallable run }
{
    run("index 1, links 0 and 0", &bones::linked(1, 1, 0, 0))?;
    run("index 0", &bones::linked(1, 0, 0, 0))
}

// One record of index 1.
pub fn links<F: Fn(&str, &[u8]) -> io::Result<()>>(run: F) -> io::Result<()>
    requires { F.IsAlwaysCallable run }
{
    for (what, bone_next, previous, next) in [
        ("next link 1", 1, 0, 1),
        ("previous link 5", 1, 5, 0),
        ("unreached, links 0 and 7", 0, 0, 7),
        ("unreached, links 0 and 0", 0, 0, 0),
    ] {
        run(what, &bones::linked(bone_next, 1, previous, next))?;
    }
    Ok(())
}
