//! Where a coordinator is, as a word gives it.
use crate::numbers::count;

/// The host's name and the port that a word gives, as `coordinator.example:7000`. What looks like an address of IPv4 is
/// no name.
pub fn host_and_port(word: &str) -> Option<(&str, u16)> {
    let (host, port) = word.rsplit_once(':')?;
    let port = u16::try_from(count(port)?).ok()?;
    let is_of_a_name = host.bytes().all(|c| c.is_ascii_alphanumeric()
        || matches!(c, b'-' | b'.' | b'_'));
    let is_named = host
        .bytes()
        .rev()
        .take_while(|c| *c != b'.')
        .any(|c| c.is_ascii_alphabetic());
    if is_of_a_name && is_named {
        Some((host, port))
    } else {
        None
    }
}
