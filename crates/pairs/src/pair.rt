// The pair, as it travels. Its last fields say what its checks have found: none is made otherwise.
ghost use Rattle.std.specs.Prelude.{◌≡◌, Ok};
ghost use Rattle.std.specs.Result.{ForOk};
ghost use Rattle.format.specs.declared.TableKind.TheVariants.{First};
ghost use Rattle.format.specs.Opening.{opening};
ghost use Rattle.format.specs.Flattening.{pair_verdict};
ghost use Rattle.opening.specs.Images.{held, outcome_of};

use format::Refusal;
use opening::Image;

// A parent: the lent bytes, and what opening them answered.
#[derive(Clone, Copy)]
pub struct Parent<'a> {
    pub bytes: &'a [u8],
    pub opened: Result<Image<'a>, Refusal>,
    pub ghost opens: { opening bytes.now ≡ outcome_of opened },
    pub ghost lent: { ForOk opened (λ image. image.bytes.now ≡ bytes.now) },
}

// The child, with a table of the first kind, and its parent. All sectors of the pair passed.
#[derive(Clone, Copy)]
pub struct Pair<'a> {
    pub child: Image<'a>,
    pub parent: Parent<'a>,
    pub ghost first: { (held child).kind ≡ First },
    pub ghost passes: { pair_verdict child.bytes.now parent.bytes.now ≡ Ok tt },
}
