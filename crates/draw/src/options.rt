//! The command line.
use clap::{Arg, ArgMatches, Command};
use line_service::{VERSION, flag};
use std::alloc::{AllocError, Global};
use tree_picture::Links;

/// What `--help` says behind the options.
const NOTES: &str = "\
A node is a box with its key and its rank. Full: its rank exceeds those of both sides by one;
as SVG a rectangle, as text [key:rank]. Uneven: by one and by two; round ends, (key:rank).
Slack: by two on both sides; pointed ends, <key:rank>.

Example:
  printf 'insert 2 0\\ninsert 1 0\\n' | draw --text

Exit status: 0; 64 on wrong usage; 65 if a line is no command, the script has more than
1,048,576 bytes, or the picture would be too large; 66 if SCRIPT can't be opened; 71 out of
memory; 74 if reading or writing failed.
";

/// How the tree is drawn.
#[derive(Clone, Copy)]
pub enum Form {
    /// As SVG, with or without the links of the list.
    Svg(Links),
    /// As text.
    Text,
}

/// When the tree is drawn.
#[derive(Clone, Copy)]
pub enum Moment {
    /// After the last line.
    End,
    /// After each line that is a command.
    EachStep,
}

/// What is drawn.
#[derive(Clone, Copy)]
pub struct Options<'a> {
    /// When the tree is drawn.
    pub moment: Moment,
    /// How it is drawn.
    pub form: Form,
    /// The file of the script; `None` for standard input.
    pub file: Option<&'a str>,
}

/// Returns the command line of the program.
pub fn command<'a>(alloc: Global) -> Result<Command<'a>, AllocError> {
    let steps = flag(
        alloc,
        "steps",
        "Draw the tree after each command, three pictures a row, with a frame around what has changed",
    );
    let links = flag(
        alloc,
        "links",
        "Draw the links of the list too, as curves below",
    );
    let text = flag(alloc, "text", "Draw for a terminal").conflicts_with("links")?;
    let script = Arg::new(alloc, "SCRIPT").help(
        "The script: a command of the ordered arena on each line; - or none for standard input",
    );
    Command::new(alloc, "draw")
        .version(VERSION)
        .about(
            "Runs a script on an ordered arena, as ordrun does, and draws its tree, as SVG or as text.",
        )
        .after_help(NOTES)
        .arg(steps)?
        .arg(links)?
        .arg(text)?
        .arg(script)
}

impl<'a> Options<'a> {
    /// Returns what a parsed command line asks for.
    pub fn of(matches: &ArgMatches<'a>) -> Options<'a> {
        let form = if matches.get_flag("text") {
            Form::Text
        } else if matches.get_flag("links") {
            Form::Svg(Links::Shown)
        } else {
            Form::Svg(Links::Hidden)
        };
        let moment = if matches.get_flag("steps") {
            Moment::EachStep
        } else {
            Moment::End
        };
        let file = match matches.get_str("SCRIPT") {
            Some("-") | None => None,
            Some(path) => Some(path),
        };
        Options { moment, form, file }
    }
}
