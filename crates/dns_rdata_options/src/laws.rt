//! Laws of options.

ghost use Rattle.std.specs.Prelude.{◌≡◌, ◌++◌, false, ℕ, List, []};
ghost use Rattle.dns_rdata_options.specs.{OPT.Pair, OPT.code_eq, OPT.options_of, OPT.without, IpNet.MaskedFour, IpNet.MaskedSixteen};
ghost use Rattle.dns_rdata_options.specs.{IpNet.MaskedWhole, Order.code_cmp, Order.subnet_cmp, Order.payload_cmp, Order.option_cmp};
ghost use Rattle.dns_rdata_options.specs.{declared.opt.code.EdnsCode.EdnsCode as Code, declared.opt.option.EdnsOption.EdnsOption as Content};
ghost use Rattle.dns_rdata_options.specs.{declared.opt.subnet.ClientSubnet.ClientSubnet as SubnetFields};

use crate::opt::{ClientSubnet, EdnsCode, EdnsOption, NSIDPayload};

/// How `cmp` orders codes, subnets, payloads and options, in terms of their fields.
#[tactic(auto, using(crate::proofs::OptionOrders::subnet_is, crate::proofs::OptionOrders::option_is))]
pub fn orders_hold()
    // codes by number, and of two with one number the one with a name before `Unknown`
    ensures code { (a b : Code) → ⟦<EdnsCode as Ord>⟧.cmp a b ≡ code_cmp a b }
    // subnets by address, IPv4 first, then by source prefix, then by scope prefix
    ensures subnet { (a b : SubnetFields) → ⟦<ClientSubnet as Ord>⟧.cmp a b ≡ subnet_cmp a b }
    // payloads by the first octet that differs
    ensures payload { (a b : List ℕ) → ⟦<NSIDPayload as Ord>⟧.cmp a b ≡ payload_cmp a b }
    // options by variant, `Subnet` before `NSID` before `Unknown`, and then by what they hold
    ensures option { (a b : Content) → ⟦<EdnsOption as Ord>⟧.cmp a b ≡ option_cmp a b }
{}

/// What `OPT::get` and `OPT::get_all` find in lists that grow by `insert` and lose options by `remove`.
#[tactic(auto, using(crate::proofs::OptionsOf::options_joined, crate::proofs::OptionsOf::options_removed, crate::proofs::OptionsOf::options_kept))]
pub fn options_hold()
    // of two lists one after the other, the options of the first, and then those of the second
    ensures joined { (code : Code) (x y : List Pair) → options_of code (x ++ y) ≡ options_of code x ++ options_of code y }
    // none of a code that was removed
    ensures removed { (code : Code) (x : List Pair) → options_of code (without code x) ≡ [] }
    // those of every other code as they were
    ensures kept { (code other : Code) (x : List Pair) → code_eq other code ≡ false → options_of other (without code x) ≡ options_of other x }
{}

/// The first bits of addresses, that were worked out by hand.
pub fn masks_hold()
    // 192.0.2.77 to 24, 26, 0, 32 and 200 bits
    ensures four { MaskedFour }
    // 2001:db8:abcd:1234::1 to 36 bits
    ensures sixteen { MaskedSixteen }
    // and to 128
    ensures whole { MaskedWhole }
{}
