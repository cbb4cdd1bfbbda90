// A rule's expression becomes nodes: shared parts written out, parts before their whole, each node right behind its last part.
ghost use Rattle.std.specs.Prelude.{◌≡◌, ◌-◌, ◌≤◌, ◌<◌, length};
ghost use Rattle.par.specs.Nodes.{kind_field};
ghost use Rattle.files.specs.Rule.{node_in};
ghost use Rattle.play.specs.Mirror.Nodes.{kind_number, packed};
ghost use Rattle.ready.specs.Mirror.WrittenOut.{put, Room, Writes};

use par::Node;
use play::kinds::Kind;

// The nodes that are written, the notice set that each gains, and how many there are: two arrays, as the desk of the C interface holds them.
#[derive(Clone, Copy)]
pub struct Written {
    pub nodes: [u16; 64],
    pub sets: [u64; 64],
    pub count: usize,
}

// A node in one number, as the desk of the C interface holds it: its kind, and 256 times its event or first part. A kind has its number as
// declared, and no `From` narrows an index.
fn pack(kind: Kind, x: usize) -> u16
    requires { x < 256 }
    ensures { result ≡ packed (kind_number kind) x }
{
    kind as u16 + 256 * (x as u16)
}

impl Written {
    // Writes one node behind the others, with the notice set that it gains.
    fn put(&mut self, kind: Kind, x: usize, set: u64)
        requires { (self.old.count < 64) × (x < 256) }
        ensures { self.new ≡ put self.old (kind_number kind) x set }
    {
        self.nodes[self.count] = pack(kind, x);
        self.sets[self.count] = set;
        self.count += 1;
    }

    // Writes the node of a construct whose first part's root is the last of the first n nodes.
    fn put_whole(&mut self, n: usize, kind: Kind, set: u64)
        requires { (1 ≤ n) × (n ≤ self.old.count) × (self.old.count < 64) }
        ensures { self.new ≡ put self.old (kind_number kind) (n - 1) set }
    {
        self.put(kind, n - 1, set);
    }
}

// The kind of a construct. A `From` could stand in `play` alone, which knows nothing of what is written out and has no use for it.
fn kind_of(node: Node) -> Kind
    ensures { kind_number result ≡ kind_field node }
{
    match node {
        Node::Silent => Kind::Silent,
        Node::Event(_) => Kind::Event,
        Node::Not(_) => Kind::Not,
        Node::Either(_, _) => Kind::Either,
        Node::Then(_, _) => Kind::Then,
        Node::Repeat(_) => Kind::Repeat,
        Node::Notify(_, _) => Kind::Notify,
        Node::Try(_, _) => Kind::Try,
    }
}

// Writes the expression of record r out behind the nodes that are written. The last is then its root. File and places go apart, as
// `files::node_of` says.
pub fn write_out(file: &[u8], at: &[usize], r: usize, written: &mut Written)
    requires { Room (node_in file.now at.now) (length at.now) r written.old }
    ensures { Writes (node_in file.now at.now) r written.old written.new }
{
    let node = records::node_at(file, at[r]);
    let kind = kind_of(node);
    match node {
        Node::Silent => written.put(kind, 0, 0),
        Node::Event(event) => written.put(kind, usize::from(event), 0),
        Node::Not(x) | Node::Repeat(x) => {
            write_out(file, at, x, written);
            written.put_whole(written.count, kind, 0);
        }
        Node::Notify(x, set) => {
            write_out(file, at, x, written);
            written.put_whole(written.count, kind, u64::from(set));
        }
        Node::Either(x, y) | Node::Then(x, y) | Node::Try(x, y) => {
            write_out(file, at, x, written);
            let n = written.count;
            write_out(file, at, y, written);
            written.put_whole(n, kind, 0);
        }
    }
}
