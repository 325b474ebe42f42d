// Names and paths, on byte slices.

#![tactic(auto)]

mod characters;

ghost use Rattle.std.specs.Prelude.{◌≡◌, ◌≢◌, ◌<◌, ℕ, [], length, get_or, slice_index, EachIndex, IfSome, IfNone};
ghost use Rattle.path.specs.Name.{dots, valid_name};
ghost use Rattle.path.specs.Path.{components, valid_path, directory_of};

// Whether `name` is "." or "..".
fn only_dots(name: &[u8]) -> bool
    ensures { result ≡ dots name.now }
{
    matches!(name, [0x2e] | [0x2e, 0x2e])
}

// Whether `name` is a valid name.
#[tactic(auto, using(crate::proofs::Names::name_short, crate::proofs::Names::name_long, crate::proofs::Names::name_bytes))]
pub fn valid_name(name: &[u8]) -> bool
    ensures { result ≡ valid_name name.now }
{
    match name.len() {
        1..=64 => characters::spelt(name) & !only_dots(name),
        _ => false,
    }
}

// How many components `path` has.
pub fn count(path: &[u8]) -> usize
    ensures { result ≡ length (components path.now) }
{
    if path.len() < 2 {
        return 0;
    }
    let mut n = 1;
    for byte in &path[1..] {
        if *byte == 0x2f {
            n += 1;
        }
    }
    n
}

// Component `i` of `path`; no bytes where there is no such component.
pub fn component(path: &[u8], i: usize) -> &[u8]
    ensures { result.now ≡ get_or (components path.now) i [] }
{
    if path.len() < 2 {
        return &[];
    }
    path[1..].split(|b| *b == 0x2f).nth(i).unwrap_or(&[])
}

// Whether `path` is a valid path.
pub fn valid_path(path: &[u8]) -> bool
    ensures { result ≡ valid_path path.now }
{
    if path.is_empty() {
        return false;
    }
    if path[0] != 0x2f {
        return false;
    }
    let n = count(path);
    if 16 < n {
        return false;
    }
    path.len() < 2 || path[1..].split(|b| *b == 0x2f).all(valid_name)
}

// Where the last slash of `path` stands.
fn last_slash(path: &[u8]) -> Option<usize>
    ensures none { IfNone result (EachIndex path.now (λ k. slice_index path.now k ≢ 0x2f)) }
    ensures at { IfSome result (λ i. (i < length path.now) × (slice_index path.now i ≡ 0x2f)) }
    ensures last { IfSome result (λ i. (k : ℕ) → i < k → k < length path.now → slice_index path.now k ≢ 0x2f) }
{
    path.iter().rposition(|b| *b == 0x2f)
}

// `path` without its last component.
pub fn directory(path: &[u8]) -> &[u8]
    ensures { result.now ≡ directory_of path.now }
{
    let last = last_slash(path).unwrap_or(0);
    &path[..last.max(1).min(path.len())]
}
