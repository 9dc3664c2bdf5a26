//! The keys of the leads of all rows, kept from a query that wants them up to the next edit.

ghost use Rattle.std.specs.Prelude.{◌≡◌, ◌++◌, false, IfOk, IfSome, OnOk, flat_map};
ghost use Rattle.ctl_index.specs.LeadKeys.{lead_key, lead_keys};

use crate::cache::Cache;
use ctl_policy::NewestFirst;
use ctl_store::StanzaKey;
use std::alloc::AllocError;

// Adds the key of the lead of each of these rows.
fn push_leads(rows: NewestFirst<'_>, leads: &mut Vec<StanzaKey>) -> Result<(), AllocError>
    ensures { OnOk result (leads.new.items ≡ leads.old.items ++ flat_map lead_key rows.entry) }
{
    'rows: for row in rows {
        if let Some(key) = row.first() {
            leads.push(*key)?;
        }
    }
    Ok(())
}

impl Cache {
    // The keys of the leads of all rows, name by name, and of each the newest first.
    fn all_leads(&self) -> Result<Vec<StanzaKey>, AllocError>
        requires { self.now.stale ≡ false }
        ensures { IfOk result (λ leads. leads.items ≡ lead_keys self.now.store) }
    {
        // Mostly each stanza is the lead of its row.
        let mut leads = Vec::with_capacity(self.alloc, self.store.counts().stanzas as usize)?;
        'names: for rows in self.all_rows() {
            push_leads(rows, &mut leads)?;
        }
        Ok(leads)
    }

    /// Keeps the keys of the leads of all rows up to the next edit. A query of many names finds each lead by them, and walks over no
    /// names for that.
    ///
    /// # Errors
    ///
    /// Out of memory. No keys are kept then.
    pub fn keep_leads(&mut self) -> Result<(), AllocError>
        requires { self.old.stale ≡ false }
        ensures { self.new ≡ self.old }
    {
        if self.leads.is_none() {
            let leads = self.all_leads()?;
            self.leads = Some(leads);
        }
        Ok(())
    }

    /// The keys of the leads of all rows, name by name, and of each the newest first, where they are kept.
    pub fn kept_leads(&self) -> Option<&[StanzaKey]>
        requires { self.now.stale ≡ false }
        ensures { IfSome result (λ leads. leads.now ≡ lead_keys self.now.store) }
    {
        match &self.leads {
            Some(leads) => Some(leads),
            None => None,
        }
    }
}
