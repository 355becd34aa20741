//! Links from one file to another.

ghost use Rattle.adf_library.specs.Library.{IsLibrary};
ghost use Rattle.cg_io.specs.Memory.{device_of};

use crate::calls::{
    closes, discards, leads, left_on_shelf, library_of_one, library_of_two, opens, says,
};
use crate::files::{FIRST, SECOND, device_with, finished, fresh, make_link, make_node, text_of};
use adf_library::Library;
use adf_model::{AdfError, Mode, NodeId, Query};
use cg_io::MemoryDevice;
use std::alloc::Global;
use std::test::Fail;

// A node, and where its links lead.
struct Case {
    from: NodeId,
    to: Result<NodeId, AdfError>,
}

const fn at(file: u32, serial: u64) -> NodeId {
    NodeId { file, serial }
}

static BOTH_OPEN: [Case; 9] = [
    Case {
        from: NodeId { file: 0, serial: 1 },
        to: Ok(NodeId { file: 0, serial: 1 }),
    },
    Case {
        from: NodeId { file: 0, serial: 2 },
        to: Ok(NodeId { file: 1, serial: 1 }),
    },
    Case {
        from: NodeId { file: 0, serial: 3 },
        to: Ok(NodeId { file: 1, serial: 2 }),
    },
    Case {
        from: NodeId { file: 0, serial: 4 },
        to: Err(AdfError::LinkMissing),
    },
    Case {
        from: NodeId { file: 0, serial: 5 },
        to: Ok(NodeId { file: 0, serial: 1 }),
    },
    Case {
        from: NodeId { file: 0, serial: 6 },
        to: Err(AdfError::LinkChain),
    },
    Case {
        from: NodeId { file: 0, serial: 7 },
        to: Err(AdfError::LinkMissing),
    },
    Case {
        from: NodeId { file: 1, serial: 3 },
        to: Ok(NodeId { file: 0, serial: 1 }),
    },
    Case {
        from: NodeId { file: 1, serial: 9 },
        to: Err(AdfError::NoSuchNode),
    },
];

static OTHER_SHUT: [Case; 4] = [
    Case {
        from: NodeId { file: 0, serial: 2 },
        to: Err(AdfError::LinkMissing),
    },
    Case {
        from: NodeId { file: 0, serial: 3 },
        to: Err(AdfError::LinkMissing),
    },
    Case {
        from: NodeId { file: 0, serial: 5 },
        to: Ok(NodeId { file: 0, serial: 1 }),
    },
    Case {
        from: NodeId { file: 1, serial: 1 },
        to: Err(AdfError::NotOpen),
    },
];

// Whether the links lead as the cases say.
fn all_lead(library: &mut Library<MemoryDevice>, cases: &[Case]) -> bool
    requires { IsLibrary device_of library.old }
    ensures { IsLibrary device_of library.new }
{
    'leading: for case in cases {
        let query = Query::Target { node: case.from };
        if !leads(library, &query, case.to) {
            return false;
        }
    }
    true
}

fn finds(
    alloc: Global,
    library: &mut Library<MemoryDevice>,
    path: &[u8],
    wanted: Result<NodeId, AdfError>,
) -> Result<bool, Fail>
    requires { IsLibrary device_of library.old }
    ensures { IsLibrary device_of library.new }
{
    let query = Query::Find {
        node: at(0, 0),
        path: text_of(alloc, path)?,
    };
    Ok(leads(library, &query, wanted))
}

#[test]
fn links_lead_from_file_to_file_while_both_are_open(rt: HostRuntime) -> Result<(), Fail> {
    let alloc = rt.alloc();
    let first = device_with(alloc, &FIRST)?;
    let second = device_with(alloc, &SECOND)?;
    let mut library = library_of_two(alloc, first, second)?;
    assert!(rt; opens(&mut library, 0, Mode::ReadWrite, Ok(())));
    assert!(rt; all_lead(&mut library, &OTHER_SHUT));
    assert!(rt; opens(&mut library, 1, Mode::ReadOnly, Ok(())));
    assert!(rt; all_lead(&mut library, &BOTH_OPEN));
    assert!(rt; finds(alloc, &mut library, b"/K/Z", Ok(at(1, 2)))?);
    assert!(rt; finds(alloc, &mut library, b"/K", Ok(at(0, 2)))?);
    assert!(rt; finds(alloc, &mut library, b"/K/W", Err(AdfError::NotFound))?);
    assert!(rt; says(&mut library, &Query::Name { node: at(0, 2) }, b"K"));
    assert!(rt; closes(&mut library, 1, Ok(())));
    assert!(rt; all_lead(&mut library, &OTHER_SHUT));
    assert!(rt; discards(&mut library, 1, Ok(())));
    assert!(rt;
        leads(
            &mut library,
            &Query::Target { node: at(0, 2) },
            Err(AdfError::LinkMissing)
        )
    );
    assert!(rt;
        leads(
            &mut library,
            &Query::Target { node: at(1, 1) },
            Err(AdfError::NoSuchFile)
        )
    );
    assert!(rt; left_on_shelf(library, 0));
    Ok(())
}

// A file in which X is 1, the link 2 leads to X, and each later one to the one before it: so many links.
fn chain(alloc: Global, links: u32) -> Result<MemoryDevice, Fail> {
    let mut file = fresh(alloc)?;
    make_node(alloc, &mut file, 0, b"X")?;
    let mut before = format!(in alloc; "/X")?;
    'linking: for number in 0..links {
        let name = format!(in alloc; "L{number}")?;
        make_link(alloc, &mut file, 0, name.as_bytes(), b"", before.as_bytes())?;
        before = format!(in alloc; "/{name}")?;
    }
    finished(file)
}

#[test]
fn a_walk_follows_a_hundred_links_and_no_more(rt: HostRuntime) -> Result<(), Fail> {
    let alloc = rt.alloc();
    let mut library = library_of_one(alloc, chain(alloc, 101)?)?;
    assert!(rt; opens(&mut library, 0, Mode::ReadOnly, Ok(())));
    assert!(rt;
        leads(
            &mut library,
            &Query::Target { node: at(0, 101) },
            Ok(at(0, 1))
        )
    );
    assert!(rt;
        leads(
            &mut library,
            &Query::Target { node: at(0, 102) },
            Err(AdfError::LinkChain)
        )
    );
    Ok(())
}
