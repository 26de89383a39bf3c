//! What the program says of its commands: no text of the tables is one that a shell takes for its own, and whoever can't
//! write is told. What is printed stands in the cases `help.case` and `hints-words.case`.
use fedrun_help::{print_about, print_version};
use fedrun_words::{AboutRequest, AboutTopic, CommandWords, all_commands};
use std::alloc::Global;
use std::io;
use std::io::{ErrorKind, Write};

// The request for this of all commands.
fn about(topic: AboutTopic) -> AboutRequest {
    AboutRequest {
        commands: all_commands(),
        topic,
    }
}

// Whether no shell takes something in the text for its own: it stands in double quotes and in brackets.
fn is_plain(text: &str) -> bool {
    !text.is_empty()
        && text.chars().all(|letter| letter.is_ascii_alphanumeric() || " ,;:.'()-".contains(letter))
}

// Whether a command's texts and names are plain, and so those of what is given to it.
fn has_plain_texts(command: &CommandWords) -> bool {
    let arguments = command.arguments.iter().chain(command.may_follow);
    is_plain(command.name)
        && is_plain(command.about)
        && arguments.map(|argument| argument.about).all(is_plain)
        && command
            .options
            .iter()
            .all(|option| is_plain(option.name) && is_plain(option.about))
}

#[test]
fn shells_take_nothing_in_the_table_for_their_own(rt: HostRuntime) {
    for command in all_commands().iter() {
        assert!(rt; has_plain_texts(command), "{}", command.name);
    }
}

// What is printed of the version.
fn version(alloc: Global, commit: &str, proof: &str) -> Option<String> {
    let mut out = Vec::new(alloc);
    if print_version(commit, proof, &mut out) {
        String::from_utf8(out).ok()
    } else {
        None
    }
}

/// A writer that takes nothing.
#[derive(Drop)]
struct Full;

impl Write for Full {
    fn write(&mut self, _buf: &[u8]) -> io::Result<usize> {
        Err(io::Error::from(ErrorKind::WriteZero))
    }

    fn flush(&mut self) -> io::Result<()> {
        Ok(())
    }
}

#[test]
fn prints_the_version_and_says_what_cant_be_written(rt: HostRuntime) {
    let text = version(rt.alloc(), "fedrun a1", ", proved with k");
    assert_eq!(rt;
        text.as_ref().map(String::as_str),
        Some("fedrun a1, proved with k\n")
    );
    let refused = [
        print_version("fedrun a1", "", &mut Full),
        print_about(about(AboutTopic::Commands), &mut Full),
    ];
    assert_eq!(rt; refused, [false; 2]);
}
