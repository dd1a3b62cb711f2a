// Where the bits of joint states stand.
ghost use Rattle.std.specs.Prelude.{◌≡◌, ◌+◌, ◌<◌, ◌≤◌, pos, IfOk, IfErr, IsTrue};
ghost use Rattle.clauses.specs.declared.flat.CnfFault.{CnfFault};
ghost use Rattle.clauses.specs.declared.flat.TheConstants.{MOST_VARIABLES};
ghost use Rattle.clauses.specs.Literals.{is_literal};
ghost use Rattle.joint_theory.specs.Bits as spec;
ghost use Rattle.joint_theory.specs.Bits.{count_of, joint_width};
ghost use Rattle.joint_theory.specs.Relation as relation;

use alternating::Alternating;
use clauses::{CnfFault, MOST_VARIABLES};
use netlist::Netlist;
use run_gates::Position;

/// A netlist, an automaton and a number of visits, and how many bits a joint state of them has.
#[derive(Clone, Copy, Debug)]
pub(crate) struct Product<'a> {
    pub netlist: &'a Netlist,
    pub violation: &'a Alternating,
    pub visits: u32,
    pub width: u32,
    pub ghost width_is: { width ≡ joint_width netlist.now violation.now visits },
    pub ghost few: { width + width < MOST_VARIABLES },
}

impl<'a> Product<'a> {
    /// The product, where the variables of two joint states and a choice are not too many.
    pub fn of(
        netlist: &'a Netlist,
        violation: &'a Alternating,
        visits: u32,
    ) -> Result<Product<'a>, CnfFault>
        ensures netlist { IfOk result (λ product. product.netlist.now ≡ netlist.now) }
        ensures violation { IfOk result (λ product. product.violation.now ≡ violation.now) }
        ensures visits { IfOk result (λ product. product.visits ≡ visits) }
        ensures large { IfErr result (λ fault. MOST_VARIABLES
            < joint_width netlist.now violation.now visits + joint_width netlist.now violation.now visits + 1) }
    {
        let signals = u64::from(netlist.signals());
        let obligations = u64::from(violation.len());
        let width = 1 + signals + signals + obligations + obligations + 1 + u64::from(visits);
        if width + width >= u64::from(MOST_VARIABLES) {
            return Err(CnfFault::TooLarge);
        }
        Ok(Product {
            netlist,
            violation,
            visits,
            width: width as u32,
        })
    }

    /// How many obligations there are.
    pub fn obligations(self) -> u32
        ensures { result ≡ count_of self.entry.violation.now }
    {
        self.violation.len()
    }

    /// The bits of the valuation, and of the one before it.
    pub fn position(self) -> Position
        ensures signals { result.signals ≡ self.entry.netlist.now.signals }
        ensures base { result.base ≡ 0 }
    {
        Position {
            signals: self.netlist.signals(),
            base: 0,
        }
    }

    /// The same in the state whose bits follow so many variables.
    pub fn position_at(self, base: u32) -> Position
        ensures signals { result.signals ≡ self.entry.netlist.now.signals }
        ensures base { result.base ≡ base }
    {
        Position {
            signals: self.netlist.signals(),
            base,
        }
    }

    // How many bits a state has before those of the obligations.
    fn narrow(self) -> u32
        ensures is { result ≡ 1 + self.entry.netlist.now.signals + self.entry.netlist.now.signals }
        ensures few { result + count_of self.entry.violation.now + count_of self.entry.violation.now + 1 + self.entry.visits ≡ self.entry.width }
    {
        let signals = self.netlist.signals();
        1 + signals + signals
    }

    /// An obligation is owed, by its number, in the state whose bits follow so many variables.
    pub fn owed(self, base: u32, number: u32) -> i32
        requires base { base ≤ self.width }
        requires below { number < count_of self.violation.now }
        ensures is { result ≡ spec.owed_bit self.entry.netlist.now base number }
        ensures literal { IsTrue (is_literal result) }
    {
        (base + self.narrow() + number + 1) as i32
    }

    /// An obligation is pending.
    pub fn pending(self, base: u32, number: u32) -> i32
        requires base { base ≤ self.width }
        requires below { number < count_of self.violation.now }
        ensures is { result ≡ spec.pending_bit self.entry.netlist.now self.entry.violation.now base number }
        ensures literal { IsTrue (is_literal result) }
    {
        (base + self.narrow() + self.obligations() + number + 1) as i32
    }

    /// The count is more than a number.
    pub fn counted(self, base: u32, number: u32) -> i32
        requires base { base ≤ self.width }
        requires below { number ≤ self.visits }
        ensures is { result ≡ spec.count_bit self.entry.netlist.now self.entry.violation.now base number }
        ensures literal { IsTrue (is_literal result) }
    {
        let obligations = self.obligations();
        (base + self.narrow() + obligations + obligations + number + 1) as i32
    }

    /// The state is bad.
    pub fn bad(self) -> i32
        ensures is { result ≡ spec.bad_bit self.entry.netlist.now self.entry.violation.now self.entry.visits }
        ensures literal { IsTrue (is_literal result) }
    {
        self.counted(0, self.visits)
    }

    /// The variable of the literal that the state is bad: the last of the state's bits.
    pub fn bad_variable(self) -> u32
        ensures is { pos result ≡ spec.bad_bit self.entry.netlist.now self.entry.violation.now self.entry.visits }
        ensures width { result ≡ self.entry.width }
    {
        self.width
    }

    /// Nothing is pending.
    pub fn emptied(self) -> i32
        ensures is { result ≡ relation.emptied_bit self.entry.width }
        ensures literal { IsTrue (is_literal result) }
    {
        (self.width + self.width + 1) as i32
    }
}
