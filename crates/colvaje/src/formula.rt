// A node as a formula, such as s0|(s1&s2).
use draft::{Draft, Node};
use std::fmt;

// A formula with more states than these is cut, since nodes that are shared can make it very long.
const MOST: usize = 64;

// The formula of a node of a draft.
#[derive(Clone, Copy)]
pub(crate) struct Formula<'a> {
    pub(crate) draft: &'a Draft,
    pub(crate) node: u8,
}

impl fmt::Display for Formula<'_> {
    fn fmt<W: fmt::Write>(&self, f: &mut fmt::Formatter<W>) -> fmt::Result {
        let mut writing = Writing {
            draft: self.draft,
            left: MOST,
            f,
        };
        writing.node(self.node)
    }
}

// A formula that is being written, and how many states are left to write.
#[derive(Drop)]
struct Writing<'a, W> {
    draft: &'a Draft,
    left: usize,
    f: &'a mut fmt::Formatter<W>,
}

impl<W: fmt::Write> Writing<'_, W> {
    #[cycle(written)]
    fn node(&mut self, node: u8) -> fmt::Result {
        if self.left == 0 {
            return self.f.write_str("...");
        }
        let (first, sign, second) = match self.draft.node_at(usize::from(node)) {
            Node::Leaf(state) => {
                self.left -= 1;
                return write!(self.f, "s{state}");
            }
            Node::Either(l, r) => (l, '|', r),
            Node::Both(l, r) => (l, '&', r),
        };
        self.child(first)?;
        self.f.write_char(sign)?;
        self.child(second)
    }

    // The same in parentheses, but where it is a state.
    #[cycle(written)]
    fn child(&mut self, node: u8) -> fmt::Result {
        if let Node::Leaf(_) = self.draft.node_at(usize::from(node)) {
            return self.node(node);
        }
        self.f.write_str("(")?;
        self.node(node)?;
        self.f.write_str(")")
    }
}
