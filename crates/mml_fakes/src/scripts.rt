//! Scripts that several tests share, with their replies.
use crate::lines;

/// Returns the first `count` lines of a text, each with its newline. Returns the whole text if it has fewer newlines
/// than that.
pub fn first_lines(text: &str, count: u64) -> &str {
    let mut rest = text;
    for _ in 0..count {
        match rest.split_once('\n') {
            Some((_, after)) => rest = after,
            None => return text,
        }
    }
    text.strip_suffix(rest).unwrap_or(text)
}

/// Returns how many lines of a text end with a newline.
pub fn ended_lines(text: &[u8]) -> usize {
    text.iter().filter(|byte| **byte == b'\n').count()
}

/// Ana's hello and a move of node 1, which she owns in `labs::PATH_OF_THREE`, as the lines of one connection.
pub const ANA_MOVES: &str = lines!(hello("ana", "a-key"), seduction(1));

/// The reply to the hello in `ANA_MOVES`.
pub const ANA_WELCOME: &str = lines!(welcome("ana"));

/// The replies to `ANA_MOVES` if the move is the first event.
pub const ANA_GRANTED: &str = lines!(welcome("ana"), granted(1, 1));

/// The journal after the move of `ANA_MOVES` was granted.
pub const ANA_JOURNAL: &str = "1 0 grant ana 1 seduction\n";

/// The journal after a close has applied the move of `ANA_MOVES`.
pub const CLOSED_JOURNAL: &str = "1 0 grant ana 1 seduction\n2 0 close\n";

/// The last line of a house (one run of a lab) whose journal is `CLOSED_JOURNAL`.
pub const ONE_CLOSED: &str = "done: 2 events, configuration 1\n";

/// Ben's hello, a move of node 2, which he owns, and a bye.
pub const BEN_MOVES: &str = lines!(hello("ben", "b-key"), seduction(2), bye);

/// The teacher's hello, a close, and a bye.
pub const TESS_CLOSES: &str = lines!(hello("tess", "chalk"), close, bye);

/// The replies to `TESS_CLOSES` if no node is chosen.
pub const NOTHING_CLOSED: &str = lines!(welcome("tess"), empty, left);

/// Hellos on two connections, some of which are denied, and requests before and after them.
pub const GREETING: &str = r#"1 {"do":"see","node":1}
1 {"do":"hello","key":"a-key","name":"ana"}
2 {"do":"hello","key":"a-key","name":"zoe"}
2 {"do":"hello","key":"a-key","name":"ben"}
1 {"do":"hello","key":"a-key","name":"ana"}
1 {"do":"bye"}
1 {"do":"see","node":1}
"#;

/// The replies to `GREETING` over `labs::PATH_OF_THREE`.
pub const GREETING_REPLIES: &str = r#"1 {"clause":0,"deny":"not-greeted","text":"say hello first"}
1 {"ok":"hello","who":"ana"}
2 {"clause":2,"deny":"unknown","text":"name and key do not match"}
2 {"clause":2,"deny":"unknown","text":"name and key do not match"}
1 {"clause":1,"deny":"greeted","text":"this connection has a name already"}
1 {"ok":"bye"}
1 {"clause":0,"deny":"not-greeted","text":"say hello first"}
"#;

/// Ana's hello, and sees of a node that is shown to her and of two that aren't.
pub const FIRST_LOOK: &str = r#"1 {"do":"hello","key":"a-key","name":"ana"}
1 {"do":"see","node":2}
1 {"do":"see","node":3}
1 {"do":"see","node":99}
"#;

/// The replies to `FIRST_LOOK` over `labs::PATH_OF_THREE`.
pub const FIRST_LOOK_REPLIES: &str = lines!(
    "1 ",
    welcome("ana"),
    "1 ",
    seen(0, false, 2, "null"),
    "1 ",
    hidden,
    "1 ",
    hidden
);

/// The hellos of the three students and the teacher of `labs::PATH_OF_THREE`, on one connection each.
pub const GREETINGS: &str = r#"1 {"do":"hello","key":"a-key","name":"ana"}
2 {"do":"hello","key":"b-key","name":"ben"}
3 {"do":"hello","key":"c-key","name":"cyd"}
4 {"do":"hello","key":"chalk","name":"tess"}
"#;

/// Ten acts that are granted after `GREETINGS`, whose journal is `TEN_LINES`.
pub const TEN_ACTS: &str = r#"1 {"at":0,"do":"move","node":1,"rule":"seduction"}
2 {"at":0,"do":"move","node":2,"rule":"seduction"}
4 {"do":"close"}
3 {"at":1,"do":"move","node":3,"rule":"marriage","with":2}
4 {"do":"close"}
2 {"at":2,"do":"move","node":2,"rule":"update"}
3 {"at":2,"do":"move","node":3,"rule":"update"}
4 {"do":"close"}
1 {"at":3,"do":"move","node":1,"rule":"abandonment"}
4 {"do":"close"}
"#;

/// The journal of `TEN_ACTS` over `labs::PATH_OF_THREE`, after which nodes 2 and 3 are a pair.
pub const TEN_LINES: &str = r#"1 0 grant ana 1 seduction
2 0 grant ben 2 seduction
3 0 close
4 1 grant cyd 3 marriage 2
5 1 close
6 2 grant ben 2 update
7 2 grant cyd 3 update
8 2 close
9 3 grant ana 1 abandonment
10 3 close
"#;
