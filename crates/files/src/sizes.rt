// Sizes with shared parts written out, filled from the front. They are capped at 65, which stands for every size above 64: so the definition `capped_size`
// has it, of which `files.Promises` speak.
ghost use Rattle.std.specs.Prelude.{◌≡◌, ◌-◌, ◌≤◌, ◌<◌, min, length, get_or};
ghost use Rattle.par.specs.Records.{Parts};
ghost use Rattle.files.specs.Rule.{node_in, Earlier, size_from, capped_size};
ghost use Rattle.files.specs.Post.{Sized};

use par::Node;

fn capped(n: u64) -> u8
    ensures { result ≡ min 65 n }
{
    n.min(65) as u8 // at most 65: no `From` narrows
}

// A record's size, from those of the records that it names.
pub fn size_of(sizes: &[u8], node: Node) -> u8
    requires { Parts (λ p. p < length sizes.now) node }
    ensures { result ≡ size_from (λ p. get_or sizes.now p 0) node }
{
    match node {
        Node::Silent | Node::Event(_) => 1,
        Node::Not(x) | Node::Repeat(x) | Node::Notify(x, _) => capped(1 + u64::from(sizes[x])),
        Node::Either(x, y) | Node::Then(x, y) | Node::Try(x, y) => {
            capped(1 + u64::from(sizes[x]) + u64::from(sizes[y]))
        }
    }
}

// The sizes of the records at the places `at`. File and places go apart, as `node_of` says.
pub fn fill_sizes(file: &[u8], at: &[usize], sizes: &mut [u8])
    requires { (length at.now ≤ length sizes.old) × Earlier (node_in file.now at.now) (length at.now) }
    ensures { Sized (node_in file.now at.now) (length at.now) sizes.old sizes.new }
{
    for (r, place) in at.iter().enumerate() {
        sizes[r] = size_of(sizes, records::node_at(file, *place));
    }
}

// The size of the last of the records at the places `at`.
pub fn rule_size(file: &[u8], at: &[usize]) -> u8
    requires { ((1 ≤ length at.now) × (length at.now ≤ 1024)) × Earlier (node_in file.now at.now) (length at.now) }
    ensures { result ≡ capped_size (node_in file.now at.now) (length at.now - 1) }
{
    let mut sizes = [0u8; 1024];
    fill_sizes(file, at, &mut sizes);
    sizes[at.len() - 1]
}
