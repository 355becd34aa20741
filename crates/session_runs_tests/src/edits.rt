//! The edits of the model.

use crate::calls::{At, Change, Form, Refusal, Target};
use crate::files::Files;
use crate::nodes::{File, Node, State};
use crate::tables::{LINK, NO_DATA};

const fn no(text: &'static str) -> Refusal {
    Refusal::Named(text)
}

// The refusal of a name below this parent, where a node of the same name may be the one of a serial.
fn try_name(file: &File, parent: u64, name: &str, own: Option<u64>) -> Result<(), Refusal> {
    match file.child(parent, name) {
        Some(serial) if own != Some(serial) => Err(no("E12 Duplicate")),
        _ => Ok(()),
    }
}

fn is_name(name: &str) -> Result<(), Refusal> {
    if name == "%" || name == "x/y" {
        return Err(no("E11 BadName"));
    }
    Ok(())
}

fn is_label(label: &str) -> Result<(), Refusal> {
    if label.len() > 32 {
        return Err(no("E13 BadLabel"));
    }
    Ok(())
}

// The data of a node that gets another shape.
fn resized(node: Node, form: &Form) -> Option<[u8; 8]> {
    if node.form.kind != form.kind || node.form.rank != form.rank {
        return None;
    }
    match node.bytes {
        Some(bytes) => Some(cut_off(bytes, form.size)),
        None => None,
    }
}

fn cut_off(bytes: [u8; 8], size: usize) -> [u8; 8] {
    let mut kept = bytes;
    for (at, byte) in kept.iter_mut().enumerate() {
        if at >= size {
            *byte = 0;
        }
    }
    kept
}

impl Files {
    // The nodes that an edit names are there: the tests are made for both before the next test.
    fn enter(&self, named: [At; 2]) -> Result<(), Refusal> {
        for at in named {
            self.there(at.file)?;
        }
        for at in named {
            self.opened(at.file)?;
        }
        for at in named {
            self.node(at)?;
        }
        Ok(())
    }

    // The node that an edit is of, behind links where it goes through them, and the parent that it moves to.
    fn reached(&self, change: Change) -> Result<[At; 2], Refusal> {
        match change {
            Change::Delete(node) | Change::Rename(node, _) => {
                self.enter([node, node])?;
                Ok([node, node])
            }
            Change::Move(node, parent) => {
                self.enter([node, parent])?;
                Ok([node, self.followed(parent, &mut 100)?])
            }
            Change::Create(node, _, _)
            | Change::Label(node, _)
            | Change::Dims(node, _)
            | Change::Put(node, _, _)
            | Change::Link(node, _, _) => {
                self.enter([node, node])?;
                let reached = self.followed(node, &mut 100)?;
                Ok([reached, reached])
            }
        }
    }

    /// Does one edit of a group of this file, or of any file; answers the node that it made.
    pub fn edit(
        &mut self,
        change: Change,
        group: &mut Option<usize>,
    ) -> Result<Option<At>, Refusal> {
        let [at, parent] = self.reached(change)?;
        let number = group.unwrap_or(at.file);
        if at.file != number || parent.file != number {
            return Err(no("E32 OtherFile"));
        }
        let node = self.node(at)?;
        if self.opened(number)?.state == State::ReadOnly {
            return Err(no("E08 ReadOnly"));
        }
        *group = Some(number);
        let alloc = self.alloc;
        let Some(file) = self.files.get_mut(number) else {
            return Err(no("E06 NoSuchFile"));
        };
        match change {
            Change::Create(_, name, label) => {
                let serial = create(file, node, name, label)?;
                return Ok(Some(At { serial, ..at }));
            }
            Change::Link(_, name, target) => {
                let serial = link(file, node, name, target)?;
                return Ok(Some(At { serial, ..at }));
            }
            Change::Delete(_) => {
                is_child(node)?;
                file.cut(alloc, node.serial)?;
            }
            Change::Rename(_, name) => rename(file, node, name)?,
            Change::Move(_, _) => {
                is_child(node)?;
                if file.is_within(parent.serial, node.serial) {
                    return Err(no("E18 IntoItself"));
                }
                try_name(file, parent.serial, node.name, Some(node.serial))?;
                file.move_last(alloc, node, parent.serial)?;
            }
            Change::Label(_, label) => {
                is_label(label)?;
                file.set(Node { label, ..node });
            }
            Change::Dims(_, form) => {
                if let Some(refusal) = form.refusal {
                    return Err(no(refusal));
                }
                let bytes = resized(node, form);
                file.set(Node {
                    form,
                    bytes,
                    ..node
                });
            }
            Change::Put(_, bytes, count) => put(file, node, bytes, count)?,
        }
        Ok(None)
    }

    fn copied(&self) -> Result<Vec<File>, Refusal> {
        let mut files = Vec::new(self.alloc);
        for file in &self.files {
            files.push(file.copied(self.alloc)?)?;
        }
        Ok(files)
    }

    /// Does a group of edits, or none of it; answers the nodes that it made, or the edit that is refused.
    pub fn edit_all(
        &mut self,
        changes: &[Change],
    ) -> Result<Result<Vec<At>, (usize, Refusal)>, Refusal> {
        let kept = self.copied()?;
        let mut group = None;
        let mut made = Vec::new(self.alloc);
        for (at, change) in changes.iter().enumerate() {
            match self.edit(*change, &mut group) {
                Ok(Some(node)) => made.push(node)?,
                Ok(None) => {}
                Err(refusal) => {
                    self.files = kept;
                    return Ok(Err((at, refusal)));
                }
            }
        }
        Ok(Ok(made))
    }
}

fn is_child(node: Node) -> Result<(), Refusal> {
    if node.serial == 0 {
        return Err(no("E10 NotAChild"));
    }
    Ok(())
}

fn create(
    file: &mut File,
    parent: Node,
    name: &'static str,
    label: &'static str,
) -> Result<u64, Refusal> {
    is_name(name)?;
    is_label(label)?;
    try_name(file, parent.serial, name, None)?;
    file.add(Node {
        serial: 0,
        parent: parent.serial,
        name,
        label,
        form: &NO_DATA,
        bytes: None,
        link: None,
    })
}

fn link(
    file: &mut File,
    parent: Node,
    name: &'static str,
    target: &'static Target,
) -> Result<u64, Refusal> {
    is_name(name)?;
    try_name(file, parent.serial, name, None)?;
    if !target.is_text {
        return Err(no("E23 BadLink"));
    }
    file.add(Node {
        serial: 0,
        parent: parent.serial,
        name,
        label: "%",
        form: &LINK,
        bytes: None,
        link: Some(target),
    })
}

fn rename(file: &mut File, node: Node, name: &'static str) -> Result<(), Refusal> {
    is_child(node)?;
    is_name(name)?;
    try_name(file, node.parent, name, Some(node.serial))?;
    file.set(Node { name, ..node });
    Ok(())
}

fn put(file: &mut File, node: Node, bytes: [u8; 8], count: usize) -> Result<(), Refusal> {
    let want = node.form.size;
    if want == 0 {
        return Err(no("E15 NoData"));
    }
    if count != want {
        return Err(Refusal::WrongLength(want, count));
    }
    file.set(Node {
        bytes: Some(cut_off(bytes, want)),
        ..node
    });
    Ok(())
}
