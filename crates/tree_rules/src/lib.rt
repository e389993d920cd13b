#![tactic(auto)]

// One vantage-point tree over a part of rows: its definitions and laws.
