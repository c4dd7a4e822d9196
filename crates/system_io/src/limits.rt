//! The limit on the size of files, in the text that the system tells of a process's limits.

ghost use Rattle.std.specs.Prelude.{IfSome, IfNone, MatchOption};
ghost use Rattle.system_io.specs.Limits.{HasNoWord, IsFirstWord, IsNumberOf, IsFirstNumber, IsNamed, TellsLimit};

/// The name of the limit, with which its line begins.
const NAME: &str = "Max file size";

/// The first word of a text.
fn first_word(text: &str) -> Option<&str>
    ensures { MatchOption result (HasNoWord text.now) (λ word. IsFirstWord text.now word.now) }
{
    text.split_whitespace().next()
}

/// The number that a word is.
fn number(word: &str) -> Option<u64>
    ensures { IsNumberOf word.now result }
{
    word.parse().ok()
}

/// The number that a text begins with, where its first word is one.
fn first_number(text: &str) -> Option<u64>
    ensures { IsFirstNumber text.now result }
{
    number(first_word(text)?)
}

/// What stands behind the name of the limit in its line.
fn behind_name(line: &str) -> Option<&str>
    ensures named { IfSome result (λ limits. IsNamed line.now limits.now) }
    ensures other { IfNone result ((limits : _) → ¬ IsNamed line.now limits) }
{
    line.strip_prefix(NAME)
}

/// The limit on files that a text of limits tells, where it is a number: the first one of its line is the one that holds.
pub(crate) fn limit_told(text: &str) -> Option<u64>
    ensures { TellsLimit text.now result }
{
    let mut rest = text;
    while let Some((line, behind)) = rest.split_once('\n') {
        if let Some(limits) = behind_name(line) {
            return first_number(limits);
        }
        rest = behind;
    }
    first_number(behind_name(rest)?)
}

#[cfg(test)]
mod tests {
    use super::*;

    // What Linux tells of a process, in part.
    const UNLIMITED: &str =
        "Limit                     Soft Limit           Hard Limit           Units     \nMax cpu time              unlimited            unlimited            seconds   \nMax file size             unlimited            unlimited            bytes     \n";

    const LIMITED: &str =
        "Max cpu time              7                    9                    seconds   \nMax file size             8192                 unlimited            bytes     \nMax data size             11                   13                   bytes     \n";

    const ROWS: &[(&str, Option<u64>)] = &[
        ("", None),
        (UNLIMITED, None),
        (LIMITED, Some(8192)),
        ("Max file size 0 4096 bytes", Some(0)),
        ("Max file size\n4096", None),
        ("Max file sizes", None),
    ];

    #[test]
    fn limit_of_a_file_is_the_first_number_of_its_line(rt: HostRuntime) {
        for &(text, want) in ROWS {
            assert_eq!(rt; limit_told(text), want, "{text}");
        }
    }
}
