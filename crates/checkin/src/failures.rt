use anyhow::anyhow;
use std::fmt::Display;

// An error about a file, as one line that begins with the file's name. (`Context` would print the cause on lines of its own.)
pub(crate) fn failure<D: Display + Drop>(file: &str, what: D) -> anyhow::Error {
    anyhow!("{file}: {what}")
}
