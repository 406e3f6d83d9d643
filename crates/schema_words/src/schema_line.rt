//! Lines with the option `--schema`.

/// Whether a word is one of the options, perhaps with `=` and its value.
fn is_option(word: &str, options: &[&str]) -> bool {
    let name = match word.split_once('=') {
        Some((name, _)) => name,
        None => word,
    };
    options.contains(&name)
}

/// Whether one of the words after a command's own, before `--`, is one of the options.
pub fn names_option(words: &[&str], options: &[&str]) -> bool {
    words
        .iter()
        .take_while(|word| **word != "--")
        .any(|word| is_option(*word, options))
}
