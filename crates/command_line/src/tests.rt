//! Words, and what they ask for.

use super::{Buffers, Order, StreamOptions, Task, WordsFault, read_words};
use motion_pulse::Stepping;
use step_record::Form;

/// A stream with buffers as on a Grbl.
fn stream_of(order: Order, form: Form) -> Task {
    Task::Stream(StreamOptions {
        order,
        buffers: Buffers::Standard,
        form,
        stepping: Stepping::Events,
        attended: false,
    })
}

/// A stream whose sender stands by.
fn attended_by(order: Order, buffers: Buffers, form: Form, stepping: Stepping) -> Task {
    Task::Stream(StreamOptions {
        order,
        buffers,
        form,
        stepping,
        attended: true,
    })
}

#[test]
fn words_ask_for_a_task_or_are_refused(rt: HostRuntime) {
    let stream = Ok(stream_of(Order::Threads, Form::One));
    let paced = Ok(stream_of(Order::Paced, Form::One));
    let compact = Ok(stream_of(Order::Threads, Form::Two));
    let seven = Ok(stream_of(Order::Lockstep(7), Form::Two));
    let wide = Ok(Task::Stream(StreamOptions {
        order: Order::Threads,
        buffers: Buffers::Wide,
        form: Form::Two,
        stepping: Stepping::Events,
        attended: false,
    }));
    let smooth = Ok(Task::Stream(StreamOptions {
        order: Order::Paced,
        buffers: Buffers::Standard,
        form: Form::One,
        stepping: Stepping::Subticks,
        attended: false,
    }));
    let attended = Ok(attended_by(
        Order::Threads,
        Buffers::Standard,
        Form::One,
        Stepping::Events,
    ));
    let attended_and_paced = Ok(attended_by(
        Order::Paced,
        Buffers::Standard,
        Form::One,
        Stepping::Events,
    ));
    let attended_by_seed = Ok(attended_by(
        Order::Lockstep(7),
        Buffers::Wide,
        Form::Two,
        Stepping::Subticks,
    ));
    let refused = Err(WordsFault::Refused);
    let rows: [(&[&str], Result<Task, WordsFault>); 89] = [
        (&[], refused),
        (&["stream"], stream),
        (&["stream", "--"], stream),
        (&["stream", "x"], refused),
        (&["stream", "stream"], refused),
        (&["stream", "--help"], refused),
        (
            &["stream", "--lockstep", "0"],
            Ok(stream_of(Order::Lockstep(0), Form::One)),
        ),
        (
            &["stream", "--lockstep=+7"],
            Ok(stream_of(Order::Lockstep(7), Form::One)),
        ),
        (
            &["stream", "--lockstep", "18446744073709551615", "--"],
            Ok(stream_of(Order::Lockstep(u64::MAX), Form::One)),
        ),
        (&["stream", "--lockstep", "18446744073709551616"], refused),
        (&["stream", "--lockstep", "-1"], refused),
        (&["stream", "--lockstep", "7.0"], refused),
        (&["stream", "--lockstep", ""], refused),
        (&["stream", "--lockstep"], refused),
        (&["stream", "--lockstep=1", "--lockstep=1"], refused),
        (&["--lockstep", "1", "stream"], refused),
        (&["stream", "--paced"], paced),
        (&["stream", "--paced", "--"], paced),
        (&["stream", "--paced", "--paced"], refused),
        (&["stream", "--paced", "--lockstep", "1"], refused),
        (&["stream", "--lockstep=1", "--paced"], refused),
        (&["--paced"], refused),
        (&["demo", "--paced"], refused),
        (&["stream", "--compact"], compact),
        (&["stream", "--compact", "--"], compact),
        (&["stream", "--", "--compact"], refused),
        (&["stream", "--compact", "--compact"], refused),
        (&["stream", "--compact=2"], refused),
        (&["stream", "--compac"], refused),
        (&["stream", "--compact", "2"], refused),
        (&["stream", "--compact", "--lockstep", "7"], seven),
        (&["stream", "--lockstep=7", "--compact"], seven),
        (&["stream", "--lockstep", "--compact", "7"], refused),
        (
            &["stream", "--paced", "--compact"],
            Ok(stream_of(Order::Paced, Form::Two)),
        ),
        (
            &["stream", "--compact", "--paced"],
            Ok(stream_of(Order::Paced, Form::Two)),
        ),
        (&["stream", "--compact", "--paced", "--lockstep=7"], refused),
        (&["stream", "--wide", "--compact"], wide),
        (&["stream", "--compact", "--wide"], wide),
        (&["stream", "--wide", "--wide"], refused),
        (&["stream", "--wide=255"], refused),
        (&["demo", "3", "--wide"], refused),
        (&["stream", "--smooth", "--paced"], smooth),
        (&["stream", "--paced", "--smooth", "--"], smooth),
        (&["stream", "--smooth", "--smooth"], refused),
        (&["stream", "--smooth=3"], refused),
        (&["--smooth", "stream"], refused),
        (&["stream", "--attended"], attended),
        (&["stream", "--attended", "--"], attended),
        (&["stream", "--", "--attended"], refused),
        (&["stream", "--attended", "--paced"], attended_and_paced),
        (&["stream", "--paced", "--attended"], attended_and_paced),
        (
            &[
                "stream",
                "--attended",
                "--lockstep",
                "7",
                "--wide",
                "--compact",
                "--smooth",
            ],
            attended_by_seed,
        ),
        (
            &[
                "stream",
                "--smooth",
                "--compact",
                "--wide",
                "--lockstep=7",
                "--attended",
            ],
            attended_by_seed,
        ),
        (
            &["stream", "--attended", "--wide"],
            Ok(attended_by(Order::Threads, Buffers::Wide, Form::One, Stepping::Events)),
        ),
        (
            &["stream", "--compact", "--attended"],
            Ok(attended_by(
                Order::Threads,
                Buffers::Standard,
                Form::Two,
                Stepping::Events,
            )),
        ),
        (
            &["stream", "--attended", "--smooth"],
            Ok(attended_by(
                Order::Threads,
                Buffers::Standard,
                Form::One,
                Stepping::Subticks,
            )),
        ),
        (
            &["stream", "--lockstep=7", "--attended"],
            Ok(attended_by(
                Order::Lockstep(7),
                Buffers::Standard,
                Form::One,
                Stepping::Events,
            )),
        ),
        (&["stream", "--attended", "--attended"], refused),
        (&["stream", "--attended=1"], refused),
        (&["stream", "--attended", "1"], refused),
        (&["stream", "--attende"], refused),
        (&["stream", "--lockstep", "--attended"], refused),
        (
            &["stream", "--attended", "--paced", "--lockstep=7"],
            refused,
        ),
        (&["--attended", "stream"], refused),
        (&["--attended"], refused),
        (&["demo", "3", "--attended"], refused),
        (&["pins", "3", "--attended"], refused),
        (&["--compact", "stream"], refused),
        (&["demo", "3", "--compact"], refused),
        (&["demo", "1"], Ok(Task::Demo(1, Stepping::Events))),
        (
            &["demo", "--", "100000"],
            Ok(Task::Demo(100_000, Stepping::Events)),
        ),
        (&["demo", "0"], refused),
        (&["demo", "100001"], refused),
        (&["demo", "4294967297"], refused),
        (&["demo", "1", "2"], refused),
        (&["demo"], refused),
        (&["demo", "3", "--smooth"], refused),
        (&["pins", "1"], Ok(Task::Demo(1, Stepping::Subticks))),
        (
            &["pins", "100000"],
            Ok(Task::Demo(100_000, Stepping::Subticks)),
        ),
        (&["pins", "0"], refused),
        (&["pins", "100001"], refused),
        (&["pins"], refused),
        (&["--", "stream"], refused),
        (&["STREAM"], refused),
        (&["grbl", "stream"], refused),
        (&[""], refused),
        (&["--help"], refused),
        (&["help"], refused),
        (&["--version"], refused),
    ];
    for (words, wanted) in rows {
        assert_eq!(rt; read_words(rt.alloc(), words), wanted);
    }
}
