//! What a string may be if a source or a command is wanted.
ghost use Rattle.std.specs.Prelude.{◌≡◌, ◌≢◌, ◌≤◌, ◌<◌, min, get_or, nat_eq, take, drop, length, ◌↔◌, true};
ghost use Rattle.std.specs.List.{AllByRecursion, starts_with};
ghost use Rattle.target_file.specs.Strings.{IsSource, IsCommand, IsLocated, is_label_like, opener, before_close};

use buck_label::{is_label_text, is_path, labels_are_short};

/// Whether the string is meant as a label.
pub fn is_label_like(text: &[u8]) -> bool
    ensures { result ≡ is_label_like text.now }
{
    match text {
        [b':', _rest @ ..] => true,
        [b'/', b'/', _rest @ ..] => true,
        _ => false,
    }
}

/// Whether the string is a path or a label.
pub fn is_source(text: &[u8]) -> bool
    ensures { (result ≡ true) ↔ IsSource text.now }
{
    if is_label_like(text) {
        is_label_text(text)
    } else {
        is_path(text)
    }
}

/// Whether a location begins here.
pub fn opens(text: &[u8]) -> bool
    ensures { result ≡ starts_with nat_eq text.now opener }
{
    text.starts_with(b"$(location ")
}

/// Whether a label and a closing parenthesis follow each `$(location `. After each it looks at no
/// more than 514 bytes.
pub fn is_command(text: &[u8]) -> bool
    ensures { (result ≡ true) ↔ IsCommand text.now }
{
    for i in 0..text.len() {
        if !is_fine(&text[i..]) {
            return false;
        }
    }
    true
}

/// The same, of a location that begins here.
fn is_fine(rest: &[u8]) -> bool
    ensures { (result ≡ true)
        ↔ (starts_with nat_eq rest.now opener ≡ true → IsLocated (drop 11 rest.now)) }
{
    !opens(rest) || is_located(&rest[11..])
}

/// Whether a label and a closing parenthesis stand in front. (A label has at most 513 bytes.)
fn is_located(rest: &[u8]) -> bool
    ensures { (result ≡ true) ↔ IsLocated rest.now }
{
    labels_are_short();
    let at = close(rest);
    at < rest.len().min(514) && is_label_text(&rest[..at])
}

/// The label that stands in front of a closing parenthesis.
pub fn label_in(rest: &[u8]) -> &[u8]
    requires { IsLocated rest.now }
    ensures { result.now ≡ before_close rest.now }
{
    labels_are_short();
    &rest[..close(rest)]
}

/// How many bytes stand before the first closing parenthesis, of at most 514.
fn close(rest: &[u8]) -> usize
    ensures fits { result ≤ min 514 (length rest.now) }
    ensures none { AllByRecursion (λ b. b ≢ 41) (take result rest.now) }
    ensures at { result < min 514 (length rest.now) → get_or rest.now result 0 ≡ 41 }
{
    let end = rest.len().min(514);
    for i in 0..end {
        if rest[i] == b')' {
            return i;
        }
    }
    end
}
