//! Each output that fails at each of its puts, and the host at each of its calls.

use crate::calls::{COPY, Call, Left, leaves};
use crate::guests::COPIES_TO_BOTH;

// Three pieces, each put to output and then to error.
const PIECES: Call = Call {
    code: &COPIES_TO_BOTH,
    piece: 4,
    ..COPY
};

// What has been put after so many pieces.
const PUT: [&str; 4] = ["", "0123", "01234567", "0123456789"];

// All pieces, and no report.
const ALL: Left<'static> = Left {
    status: 6,
    out: "0123456789",
    err: "0123456789",
    second_out: "0123456789",
    second_err: "0123456789",
};

#[test]
fn output_fails_at_each_put(rt: HostRuntime) {
    for n in 1..4 {
        let call = Call {
            out_failing: n as u32,
            ..PIECES
        };
        let left = Left {
            out: PUT[n - 1],
            err: PUT[n - 1],
            second_out: PUT[n],
            second_err: PUT[n],
            ..ALL
        };
        leaves(&rt, rt.alloc(), &call, &left);
    }
}

#[test]
fn error_fails_at_each_put(rt: HostRuntime) {
    for n in 1..4 {
        let call = Call {
            err_failing: n as u32,
            ..PIECES
        };
        let left = Left {
            out: PUT[n],
            err: PUT[n - 1],
            second_out: PUT[n],
            second_err: PUT[n],
            ..ALL
        };
        leaves(&rt, rt.alloc(), &call, &left);
    }
}

#[test]
fn error_fails_in_the_report(rt: HostRuntime) {
    let first = Call {
        err_failing: 4,
        ..PIECES
    };
    leaves(&rt, rt.alloc(), &first, &ALL);
    let second = Call {
        err_failing: 5,
        ..PIECES
    };
    let left = Left {
        err: "0123456789process 1 status 0\n",
        ..ALL
    };
    leaves(&rt, rt.alloc(), &second, &left);
}

#[test]
fn the_second_output_fails_at_each_put(rt: HostRuntime) {
    for n in 1..4 {
        let call = Call {
            second_out_failing: n as u32,
            ..PIECES
        };
        let left = Left {
            second_out: PUT[n - 1],
            second_err: PUT[n - 1],
            ..ALL
        };
        leaves(&rt, rt.alloc(), &call, &left);
    }
}

#[test]
fn the_second_error_fails_at_each_put(rt: HostRuntime) {
    for n in 1..4 {
        let call = Call {
            second_err_failing: n as u32,
            ..PIECES
        };
        let left = Left {
            second_out: PUT[n],
            second_err: PUT[n - 1],
            ..ALL
        };
        leaves(&rt, rt.alloc(), &call, &left);
    }
}

#[test]
fn the_host_fails_at_each_call(rt: HostRuntime) {
    let errs = [
        "dos: host fault\n",
        "0123dos: host fault\n",
        "01234567dos: host fault\n",
        "0123456789dos: host fault\n",
    ];
    for n in 0..4 {
        let call = Call {
            host_failing: n as u32 + 1,
            ..PIECES
        };
        let left = Left {
            status: 5,
            out: PUT[n],
            err: errs[n],
            second_out: PUT[n],
            second_err: PUT[n],
        };
        leaves(&rt, rt.alloc(), &call, &left);
    }
}

// The line of a refusal can't be put.
#[test]
fn error_fails_in_a_line(rt: HostRuntime) {
    let call = Call {
        words: &["-"],
        err_failing: 1,
        ..COPY
    };
    let left = Left {
        status: 6,
        out: "",
        err: "",
        second_out: "",
        second_err: "",
    };
    leaves(&rt, rt.alloc(), &call, &left);
}
