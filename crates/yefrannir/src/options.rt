// What `run` is asked for: a script, and what else is wanted of it.
use crate::failure::Failure;
use command_list::reader::MOST_BYTES;

/// The arguments of `run`.
#[derive(Drop)]
pub(crate) struct Options {
    /// The path of the script.
    pub(crate) script: String,
    /// Whether the record of the pass is told after each line.
    pub(crate) with_pass: bool,
    /// The file that the last list is written to.
    pub(crate) list: Option<String>,
    /// How many bytes a list has at the start.
    pub(crate) space: usize,
}

// An option that the next word belongs to.
#[derive(Clone, Copy)]
enum Awaited {
    Nothing,
    List,
    Space,
}

/// Reads the words behind `run`: options stand before the script or behind it.
pub(crate) fn read_options(words: Vec<String>) -> Result<Options, Failure> {
    let mut script = None;
    let mut with_pass = false;
    let mut list = None;
    let mut space = MOST_BYTES;
    let mut awaited = Awaited::Nothing;
    for word in words {
        awaited = match (awaited, word.as_str()) {
            (Awaited::List, path) => {
                if path.starts_with("--") {
                    return Err(Failure::NoListFile);
                }
                list = Some(word);
                Awaited::Nothing
            }
            (Awaited::Space, digits) => {
                space = digits.parse().map_err(|_| Failure::NoSpace)?;
                Awaited::Nothing
            }
            (Awaited::Nothing, "--pass") => {
                with_pass = true;
                Awaited::Nothing
            }
            (Awaited::Nothing, "--list") => Awaited::List,
            (Awaited::Nothing, "--space") => Awaited::Space,
            (Awaited::Nothing, text) => {
                if script.is_some() || text.starts_with("--") {
                    return Err(Failure::BadArguments);
                }
                script = Some(word);
                Awaited::Nothing
            }
        };
    }
    match (awaited, script) {
        (Awaited::List, _) => Err(Failure::NoListFile),
        (Awaited::Space, _) => Err(Failure::NoSpace),
        (Awaited::Nothing, None) => Err(Failure::NothingToRun),
        (Awaited::Nothing, Some(script)) => Ok(Options {
            script,
            with_pass,
            list,
            space,
        }),
    }
}
