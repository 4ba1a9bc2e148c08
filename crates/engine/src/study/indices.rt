// The indices of the yearly return.
ghost use Rattle.std.specs.Prelude.{◌≡◌};
ghost use Rattle.engine.specs.Laws.{AlikeBy};
ghost use Rattle.engine.specs.Questions.{per_customer, saidi_of, saifi_of, eens_of};
ghost use Rattle.engine.specs.Studies.{feeder_of};

use super::Study;
use lines::Refusal;
use measures::{Count, Minutes, Weighed};
use sweeps::By;

impl Study<'_> {
    // The customer-weighted sum divided by all customers.
    fn per_customer<M: Weighed>(&self, m: &M) -> Result<u64, Refusal>
        ensures { result ≡ per_customer (M.Measure.meaning m.now) (M.Weighed.number m.now) (feeder_of self.now) }
    {
        let v = self.view()?;
        let customers = v.weight(By::Customers);
        if customers == 0 {
            return Err(Refusal::NoCustomers);
        }
        Ok(v.weighted(m, By::Customers) / customers)
    }

    /// SAIDI in thousandths of a minute, rounded down.
    pub fn saidi(&self) -> Result<u64, Refusal>
        ensures answer { result ≡ saidi_of (feeder_of self.now) }
        ensures alike { AlikeBy saidi_of (feeder_of self.now) result }
    {
        self.per_customer(&Minutes)
    }

    /// SAIFI in thousandths, rounded down.
    pub fn saifi(&self) -> Result<u64, Refusal>
        ensures answer { result ≡ saifi_of (feeder_of self.now) }
        ensures alike { AlikeBy saifi_of (feeder_of self.now) result }
    {
        self.per_customer(&Count)
    }

    /// Energy not supplied in kWh a year, rounded down.
    pub fn eens(&self) -> Result<u64, Refusal>
        ensures answer { result ≡ eens_of (feeder_of self.now) }
        ensures alike { AlikeBy eens_of (feeder_of self.now) result }
    {
        Ok(self.view()?.weighted(&Minutes, By::Load) / 60000)
    }
}
