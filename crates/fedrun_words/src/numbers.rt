/// A number of turns, rounds, steps or seconds, from 0 to 4294967295 in ASCII digits.
pub fn count(text: &str) -> Option<u32> {
    if text.bytes().all(|byte| byte.is_ascii_digit()) {
        text.parse::<u32>().ok()
    } else {
        None
    }
}
