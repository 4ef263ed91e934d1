// The arrays. Functions make them, so that a proof sees their length and not their elements. No case but one of marks
// takes memory, so that none is called wrong for want of it.
ghost use Rattle.std.specs.Prelude.{◌≡◌, length};
ghost use Rattle.mode.specs.Lent.{Clear};
ghost use Rattle.distinct.specs.Marks.{Blank};

use layout::{MaNode, NodeInfo};

// The stored bytes: what stands behind so many is not looked at.
pub fn stored() -> [u8; 344064]
    ensures { 344064 ≡ length result }
{
    [0; 344064]
}

// Count space: the mode step and the candidates ask for zeros.
pub fn counts() -> [u32; 4096]
    ensures long { 4096 ≡ length result }
    ensures zeros { Clear result }
    ensures blank { Blank result }
{
    [0; 4096]
}

// An even sample.
pub fn sample() -> [u32; 512]
    ensures { 512 ≡ length result }
{
    [0; 512]
}

// As many nodes as a job has at most.
pub fn nodes() -> [MaNode; 128]
    ensures { 128 ≡ length result }
{
    let info = NodeInfo {
        cost: 0.0,
        pred: 0,
        offset: 0,
    };
    [MaNode::leaf(info, 0); 128]
}

// As many contexts or queue entries as a job has nodes at most.
pub fn entries() -> [u32; 128]
    ensures { 128 ≡ length result }
{
    [0; 128]
}

// The properties of 64 rows.
pub fn few_properties() -> [i32; 1536]
    ensures { 1536 ≡ length result }
{
    [0; 1536]
}

// The tokens of 64 rows.
pub fn tokens() -> [u8; 896]
    ensures { 896 ≡ length result }
{
    [0; 896]
}

// The residuals of 64 rows.
pub fn residuals() -> [i32; 64]
    ensures { 64 ≡ length result }
{
    [0; 64]
}

// The properties of 2,064 rows.
pub fn many_properties() -> [i32; 49536]
    ensures { 49536 ≡ length result }
{
    [0; 49536]
}
