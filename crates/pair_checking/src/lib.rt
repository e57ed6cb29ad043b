// Internal: the check of all sectors of a pair of images, the child and its parent, by rising address (8/13).
//
// Cost: the check of all sectors of the child, and then of those that it leaves to its parent (see `checking`), so that each data block of both images is
// summed once at most; of a parent that doesn't open, one pass over the child's table entries instead.
#![tactic(auto)]

ghost use Rattle.std.specs.Prelude.{◌≡◌};
ghost use Rattle.format.specs.declared.TableKind.TheVariants.{First};
ghost use Rattle.format.specs.Flattening.{pair_verdict};
ghost use Rattle.opening.specs.Images.{held};

use format::Refusal;
use opening::Image;
use pairs::Parent;

// All sectors of the pair: the first refusal other than 21. It is the child's first one, unless the parent refuses a sector at a lower address that the
// child has not written. As both tables rise with the addresses, the parent's first one is that of the lowest such address.
pub fn pair_verdict<'a>(child: Image<'a>, parent: Parent<'a>) -> Result<(), Refusal>
    requires { (held child).kind ≡ First }
    ensures { result ≡ pair_verdict child.entry.bytes.now parent.entry.bytes.now }
{
    let own = checking::first_refused(child);
    let limit = own.number;
    match parent.opened {
        Err(r) => {
            let gap = checking::first_unwritten(child, own);
            if gap.number < limit {
                return Err(pairs::parent_refusal(r));
            }
            own.verdict
        }
        Ok(image) => {
            let other = checking::first_left(image, child, limit);
            other.verdict.map_err(pairs::parent_refusal)?;
            own.verdict
        }
    }
}
