// A path normalised where it stands. Its slashes are collapsed byte by byte as they are compared, so nothing is copied.
ghost use Rattle.std.specs.Prelude.{◌≡◌, ◌==◌, ◌&&◌, ◌≤◌, ◌<◌, cond, drop, get_or, length};
ghost use Rattle.std.specs.Bool.{OnTrue};
ghost use Rattle.std.specs.Str.{str_eq_ignore_ascii_case};
ghost use Rattle.asset_references.specs.Normalize.{slash, slashed, collapsed, begins_with_userfile, normalize_path};
ghost use Rattle.asset_references.specs.Behind.{behind};
ghost use Rattle.asset_references.specs.Answers.{text_read, rest_read};

// Whether a slash or a backslash stands there.
fn is_slash(path: &[u8], at: usize) -> bool
    ensures is { result ≡ (slashed (get_or path.now at 0) == slash) }
    ensures inside { OnTrue result (at < length path.now) }
{
    at < path.len() && (path[at] == b'/' || path[at] == b'\\')
}

// The first byte of a path with its slashes collapsed, and the path behind it.
#[tactic(auto, using(crate::proofs::Collapsed::split_first))]
fn split_first(path: &[u8]) -> Option<(u8, &[u8])>
    ensures { text_read result ≡ collapsed path.now }
{
    if path.is_empty() {
        return None;
    }
    if !is_slash(path, 0) {
        return Some((path[0], &path[1..]));
    }
    if !is_slash(path, 1) {
        return Some((b'/', &path[1..]));
    }
    Some((b'/', &path[2..]))
}

// What is left of a path behind a text with which it begins, its slashes collapsed and in any letter case.
#[tactic(auto, using(crate::proofs::Behind::stripped))]
fn strip_prefix_ignoring_case<'a>(path: &'a [u8], text: &[u8]) -> Option<&'a [u8]>
    ensures { rest_read result ≡ behind (collapsed path.now) text.now }
{
    let mut rest = path;
    for byte in text {
        let (first, others) = split_first(rest)?;
        if !byte.eq_ignore_ascii_case(&first) {
            return None;
        }
        rest = others;
    }
    Some(rest)
}

// Whether a text is a path with its slashes collapsed, in any letter case.
#[tactic(auto, using(crate::proofs::Behind::is_text))]
pub fn is_text(path: &[u8], text: &[u8]) -> bool
    ensures { result ≡ str_eq_ignore_ascii_case text.now (collapsed path.now) }
{
    match strip_prefix_ignoring_case(path, text) {
        Some(rest) => rest.is_empty(),
        None => false,
    }
}

#[tactic(auto, using(crate::proofs::Behind::begins))]
fn begins_with_userfile(path: &[u8]) -> bool
    ensures { result ≡ begins_with_userfile (collapsed path.now) }
{
    strip_prefix_ignoring_case(path, b"userfile/").is_some()
}

// The path from `at` on if `userfile/` stands there, and `cut` otherwise.
fn later_cut<'a>(path: &'a [u8], at: usize, here: bool, cut: &'a [u8]) -> &'a [u8]
    requires { at ≤ length path.now }
    ensures { collapsed result.now ≡ cond (here && begins_with_userfile (collapsed (drop at path.now))) (collapsed (drop at path.now)) (collapsed cut.now) }
{
    if here && begins_with_userfile(&path[at..]) {
        &path[at..]
    } else {
        cut
    }
}

// The part of the path from its last `userfile/` on; all of it where it has none.
#[tactic(auto, using(crate::proofs::Cut::cutting))]
pub fn normalize_path(path: &[u8]) -> &[u8]
    ensures { collapsed result.now ≡ normalize_path path.now }
{
    let mut cut = path;
    let mut here = true;
    for at in 0..path.len() {
        cut = later_cut(path, at, here, cut);
        here = is_slash(path, at);
    }
    cut
}
