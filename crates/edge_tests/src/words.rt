use dice_words::{Command, WordsFail, read_words};

/// The words of a command line.
type Words = &'static [&'static str];

/// Command lines of `run` without the trace, and how many workers they name.
const WORKERS: [(Words, u32); 9] = [
    (&["dice", "run"], 4),
    (&["dice", "run", "--"], 4),
    (&["dice", "run", "--workers", "0"], 0),
    (&["dice", "run", "--workers", "64"], 64),
    (&["dice", "run", "--workers=7"], 7),
    (&["dice", "run", "--workers", "10", "--"], 10),
    (&["dice", "run", "--workers", "+4"], 4),
    (&["dice", "run", "--workers", "007"], 7),
    (&["dice", "run", "--workers=-0"], 0),
];

#[test]
fn reads_how_many_workers(rt: HostRuntime) {
    for (words, workers) in WORKERS {
        assert!(rt;
            read_words(rt.alloc(), words)
                == Ok(Command::Run {
                    workers,
                    trace: false
                })
        );
    }
}

/// Command lines of `run` with the trace, and how many workers they name.
const TRACED: [(Words, u32); 4] = [
    (&["dice", "run", "--trace"], 4),
    (&["dice", "run", "--trace", "--workers", "0"], 0),
    (&["dice", "run", "--workers", "64", "--trace"], 64),
    (&["dice", "run", "--workers=64", "--trace", "--"], 64),
];

#[test]
fn reads_the_trace_flag(rt: HostRuntime) {
    for (words, workers) in TRACED {
        assert!(rt;
            read_words(rt.alloc(), words)
                == Ok(Command::Run {
                    workers,
                    trace: true
                })
        );
    }
}

/// Command lines of `bulk`, and how many targets and workers they name.
const TARGETS: [(Words, u32, u32); 6] = [
    (&["dice", "bulk", "1"], 1, 4),
    (&["dice", "bulk", "10000"], 10_000, 4),
    (&["dice", "bulk", "10000", "--workers", "2"], 10_000, 2),
    (&["dice", "bulk", "--workers", "0", "12"], 12, 0),
    (&["dice", "bulk", "--workers=64", "--", "12"], 12, 64),
    (&["dice", "bulk", "--", "+012"], 12, 4),
];

#[test]
fn reads_how_many_targets(rt: HostRuntime) {
    for (words, targets, workers) in TARGETS {
        assert!(rt; read_words(rt.alloc(), words) == Ok(Command::Bulk { targets, workers }));
    }
}

/// Words that are refused.
const REFUSED: [Words; 32] = [
    &[],
    &["dice"],
    &["dice", "ran"],
    &["dice", "workers"],
    &["dice", "--workers", "4", "run"],
    &["dice", "run", "x"],
    &["dice", "run", "run"],
    &["dice", "run", "4"],
    &["dice", "run", "--worker", "4"],
    &["dice", "run", "-w", "4"],
    &["dice", "run", "--workers"],
    &["dice", "run", "--workers", ""],
    &["dice", "run", "--workers="],
    &["dice", "run", "--workers", "x"],
    &["dice", "run", "--workers", "4x"],
    &["dice", "run", "--workers", "-1"],
    &["dice", "run", "--workers=-1"],
    &["dice", "run", "--workers", "65"],
    &["dice", "run", "--workers", "99999999999999999999"],
    &["dice", "run", "--workers", "1", "--workers", "2"],
    &["dice", "run", "--workers", "--trace"],
    &["dice", "run", "--trace", "--trace"],
    &["dice", "run", "--trace=true"],
    &["dice", "run", "--", "--trace"],
    &["dice", "--trace", "run"],
    &["dice", "bulk"],
    &["dice", "bulk", "0"],
    &["dice", "bulk", "10001"],
    &["dice", "bulk", "x"],
    &["dice", "bulk", "1", "2"],
    &["dice", "bulk", "1", "--trace"],
    &["dice", "bulk", "1", "--workers", "65"],
];

#[test]
fn refuses_other_words(rt: HostRuntime) {
    for words in REFUSED {
        assert!(rt; read_words(rt.alloc(), words) == Err(WordsFail::Refused));
    }
}

/// Calls for help, which are refused words.
const HELP: [Words; 7] = [
    &["dice", "help"],
    &["dice", "--help"],
    &["dice", "--version"],
    &["dice", "run", "--help"],
    &["dice", "run", "-h"],
    &["dice", "run", "--version"],
    &["dice", "bulk", "1", "--help"],
];

#[test]
fn refuses_calls_for_help(rt: HostRuntime) {
    for words in HELP {
        assert!(rt; read_words(rt.alloc(), words) == Err(WordsFail::Refused));
    }
}
