//! Reports on files in memory.

use adf_model::AdfError;
use cg_io::{MemoryDevice, MemorySink};
use layout_report::{Report, lint_file, map_file};
use sample_files::{Change, Sample, image_of};
use std::alloc::Global;
use std::test::Fail;

// Which report is asked for.
#[derive(Clone, Copy, Drop)]
enum Call {
    Lint,
    Map,
}

// A report on a file, and what it has to say.
#[derive(Clone, Copy, Drop)]
struct Row {
    call: Call,
    sample: Sample,
    changes: &'static [Change],
    // How many bytes of the file are left.
    length: usize,
    // The read and the line that are to fail, from 1; 0 for none.
    failing: (u64, u64),
    report: Report,
    lines: &'static [u8],
}

// A file of this many bytes of a sample.
fn device_of(alloc: Global, row: Row) -> Result<MemoryDevice, AdfError> {
    let Ok(mut image) = image_of(alloc, row.sample) else {
        return Err(AdfError::Memory);
    };
    image.change(row.changes);
    image.cut(row.length);
    let text = image.text();
    if text.items().len() > 1 << 20 {
        return Err(AdfError::Memory);
    }
    let mut device = MemoryDevice::new(alloc, text);
    device.fail_read(row.failing.0)?;
    Ok(device)
}

fn report(
    alloc: Global,
    call: Call,
    device: MemoryDevice,
    output: &mut MemorySink,
) -> (MemoryDevice, Report) {
    match call {
        Call::Lint => lint_file(alloc, device, output),
        Call::Map => map_file(alloc, device, output),
    }
}

// Whether a report ends and says what its row wants.
fn is_reported(alloc: Global, row: Row) -> bool {
    let Ok(device) = device_of(alloc, row) else {
        return false;
    };
    let mut output = MemorySink::new(alloc);
    output.fail_at(row.failing.1);
    let (_, found) = report(alloc, row.call, device, &mut output);
    found == row.report && output.taken() == row.lines
}

const WHOLE: usize = 4096;

const LINT_FRESH: Row = Row {
    call: Call::Lint,
    sample: Sample::Fresh,
    changes: &[],
    length: 512,
    failing: (0, 0),
    report: Report::Done,
    lines: b"sound nodes 1 gaps 0 end 511\n",
};

const MAP_FRESH: Row = Row {
    call: Call::Map,
    lines: b"0 186 header\n186 80 free-table\n266 246 node /\nend 511\n",
    ..LINT_FRESH
};

const ROWS: [Row; 13] = [
    LINT_FRESH,
    MAP_FRESH,
    Row {
        length: 511,
        report: Report::Broken,
        lines: b"L08 146\n",
        ..LINT_FRESH
    },
    Row {
        length: 511,
        report: Report::Broken,
        lines: b"L08 146\n",
        ..MAP_FRESH
    },
    Row {
        failing: (1, 0),
        report: Report::DeviceFault,
        lines: b"E02 ReadFault\n",
        ..LINT_FRESH
    },
    Row {
        failing: (1, 0),
        report: Report::DeviceFault,
        lines: b"E02 ReadFault\n",
        ..MAP_FRESH
    },
    Row {
        failing: (0, 1),
        report: Report::SinkFault,
        lines: b"",
        ..LINT_FRESH
    },
    Row {
        failing: (0, 3),
        report: Report::SinkFault,
        lines: b"0 186 header\n186 80 free-table\n",
        ..MAP_FRESH
    },
    Row {
        sample: Sample::OneChild,
        length: 1130,
        lines: b"sound nodes 2 gaps 0 end 1129\n",
        ..LINT_FRESH
    },
    Row {
        sample: Sample::OneChild,
        length: 1130,
        lines: b"0 186 header\n186 80 free-table\n266 246 node /\n512 246 node /Base\n758 372 subnodes /\nend 1129\n",
        ..MAP_FRESH
    },
    Row {
        sample: Sample::MovedRoot,
        length: WHOLE,
        lines: b"sound nodes 4 gaps 2 end 1509\n",
        ..LINT_FRESH
    },
    Row {
        sample: Sample::MovedRoot,
        length: WHOLE,
        lines: b"0 186 header\n186 80 free-table\n266 34 filler\n300 246 node /A%20b/C\n546 54 filler\n600 246 node /\n846 108 subnodes /\n954 246 node /B\n1200 246 node /A%20b\n1446 64 subnodes /A%20b\nend 1509\n",
        ..MAP_FRESH
    },
    Row {
        sample: Sample::OneChild,
        length: WHOLE,
        changes: &[(512, b"X")],
        report: Report::Broken,
        lines: b"L15 512\n",
        ..MAP_FRESH
    },
];

#[test]
fn a_report_says_what_its_row_wants(rt: HostRuntime) -> Result<(), Fail> {
    for k in 0..ROWS.len() {
        assert!(rt; is_reported(rt.alloc(), ROWS[k]), "row {k}");
    }
    Ok(())
}

// Whether a file is reported on again after a report of it, by the same device and output.
fn goes_on(alloc: Global, first: Row, second: Row) -> bool {
    let Ok(device) = device_of(alloc, first) else {
        return false;
    };
    let mut output = MemorySink::new(alloc);
    let (mut device, found) = report(alloc, first.call, device, &mut output);
    let length = output.taken().len();
    if device.fail_read(second.failing.0).is_err() {
        return false;
    }
    let (_, again) = report(alloc, second.call, device, &mut output);
    found == first.report
        && again == second.report
        && length == first.lines.len()
        && output.taken().starts_with(first.lines)
        && output.taken().ends_with(second.lines)
        && output.taken().len() == length + second.lines.len()
}

const LINT_CUT: Row = Row {
    length: 511,
    report: Report::Broken,
    lines: b"L08 146\n",
    ..LINT_FRESH
};

const LINT_FAILING: Row = Row {
    failing: (1, 0),
    report: Report::DeviceFault,
    lines: b"E02 ReadFault\n",
    ..LINT_FRESH
};

// Two reports, one after the other. A failed read is no fault of the file: what is asked again is answered.
const PAIRS: [(Row, Row); 4] = [
    (LINT_FRESH, MAP_FRESH),
    (
        LINT_CUT,
        Row {
            call: Call::Map,
            ..LINT_CUT
        },
    ),
    (LINT_FAILING, MAP_FRESH),
    (
        LINT_FAILING,
        Row {
            call: Call::Map,
            failing: (2, 0),
            ..LINT_FAILING
        },
    ),
];

#[test]
fn a_report_leaves_its_device(rt: HostRuntime) -> Result<(), Fail> {
    for k in 0..PAIRS.len() {
        let (first, second) = PAIRS[k];
        assert!(rt; goes_on(rt.alloc(), first, second), "pair {k}");
    }
    Ok(())
}
